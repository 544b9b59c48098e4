//! Writes the reply to each line of standard input to standard output.
#![tactic(auto)]

use std::io;
use tinystr_lines::engine::{RunError, run};

fn main(rt: HostRuntime) -> Result<(), RunError> {
    run(rt.alloc(), &mut rt.reader(), &mut io::writer(&rt))
}
