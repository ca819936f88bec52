// The original encoder as definitions, and its equality with `format`'s. There is no code here, and nothing depends on it.
#![tactic(auto)]
