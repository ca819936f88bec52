// Prints what the widening table must hold (document 02, A.3), from document 01's formula and not from the table: a number a line, by width
// from 9 to 16 bits, then sample from 0 to 255.
#![tactic(auto)]

ghost use Rattle.std.specs.Prelude.{◌≡◌, ◌<◌, ◌≤◌};
ghost use Rattle.leaves.specs.Fit.{fit};

use std::io;

// "sample × 2^(n−8) plus the sample's top n−8 bits"; at 16 bits these are the whole sample.
fn by_formula(n: u32, sample: u32) -> u32
    requires lt_n { 8 < n }
    requires n_bound { n ≤ 16 }
    requires sample_bound { sample < 256 }
    ensures { result ≡ fit n sample }
{
    (sample << (n - 8)) + (sample >> (16 - n))
}

// The numbers of one width.
fn print_row(rt: &impl Print, n: u32) -> io::Result<()>
    requires lt_n { 8 < n }
    requires n_bound { n ≤ 16 }
{
    for sample in 0..256 {
        println!(rt; "{}", by_formula(n, sample))?;
    }
    Ok(())
}

fn main(rt: HostRuntime) -> io::Result<()> {
    for n in 9..=16 {
        print_row(&rt, n)?;
    }
    Ok(())
}
