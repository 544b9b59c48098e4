//! The jobs that users of these crates wait for: `workloads JOB SEED ROUNDS` does one of them in each of that number of
//! rounds, on an input made from the seed, and prints a digest of all results. `all` does each. `bench/run` times them.
#![tactic(auto)]

mod awkward;
mod cells;
mod codes;
mod columns;
mod digest;
mod identifiers;
mod lines;
mod lists;
mod random;
mod tables;

use digest::Digest;
use random::Random;
use std::alloc::Global;
use std::env;
use std::io::{self, ErrorKind};
use tinystr_lines::engine::RunError;

#[derive(Clone, Copy)]
enum Job {
    Identifiers,
    Tables,
    Columns,
    Lists,
    Lines,
    Awkward,
}

const JOBS: [(&str, Job); 6] = [
    ("identifiers", Job::Identifiers),
    ("tables", Job::Tables),
    ("columns", Job::Columns),
    ("lists", Job::Lists),
    ("lines", Job::Lines),
    ("awkward", Job::Awkward),
];

impl Job {
    fn run(self, alloc: Global, random: &mut Random, digest: &mut Digest) -> Result<(), RunError> {
        match self {
            Job::Identifiers => Ok(identifiers::run(alloc, random, digest)?),
            Job::Tables => Ok(tables::run(alloc, random, digest)?),
            Job::Columns => Ok(columns::run(alloc, random, digest)?),
            Job::Lists => Ok(lists::run(alloc, random, digest)?),
            Job::Lines => lines::run(alloc, random, digest),
            Job::Awkward => awkward::run(alloc, random, digest),
        }
    }

    // The digest of all rounds.
    fn digest(self, alloc: Global, seed: u64, rounds: u32) -> Result<u64, RunError> {
        let mut random = Random::new(seed);
        let mut digest = Digest::new();
        for _ in 0..rounds {
            self.run(alloc, &mut random, &mut digest)?;
        }
        Ok(digest.value())
    }
}

fn main(rt: HostRuntime) -> io::Result<()> {
    let mut words = env::args(&rt)?;
    let _program = words.next();
    let (Some(wanted), Some(seed), Some(rounds)) = (words.next(), words.next(), words.next()) else {
        return Err(ErrorKind::InvalidInput.into());
    };
    let (Ok(seed), Ok(rounds)) = (seed.as_str().parse::<u64>(), rounds.as_str().parse::<u32>())
    else {
        return Err(ErrorKind::InvalidInput.into());
    };
    for (name, job) in JOBS {
        if wanted.as_str() == "all" || wanted.as_str() == name {
            let Ok(digest) = job.digest(rt.alloc(), seed, rounds) else {
                return Err(ErrorKind::Other.into());
            };
            println!(rt; "{name} {digest:016x}")?;
        }
    }
    Ok(())
}
