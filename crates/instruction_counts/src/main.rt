//! The calls on small fixed inputs: `scripts/checks/instruction-counts` counts the instructions of each call of a function whose name
//! begins with `counted_`. Each prints a line after it: what it does, and a sum of its results.
#![tactic(auto)]

mod inputs;
mod prefixes;
mod readers;
mod searches;

use std::io;

fn main(rt: HostRuntime) -> io::Result<()> {
    searches::run(&rt)?;
    prefixes::run(&rt)?;
    readers::run(&rt)
}

/// Prints the name of a call with its capacity, the number of records or of inputs, what the inputs are, and a sum of the
/// results.
fn print_sum(
    rt: &HostRuntime,
    call: &str,
    capacity: usize,
    count: usize,
    inputs: &str,
    sum: usize,
) -> io::Result<()> {
    println!(rt; "{call} {capacity} {count} {inputs}: {sum}")
}
