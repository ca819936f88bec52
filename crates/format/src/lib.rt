// Definitions and theorems only: the file that an accepted call appends, the two readers, and the table of
// refusals. `layout` declares the types that the definitions share with the code of the planner.
#![tactic(auto)]

pub mod layout;
