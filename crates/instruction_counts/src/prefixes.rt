//! The texts with a prefix.

ghost use Rattle.std.specs.Prelude.{◌<◌, ◌^◌};

use crate::inputs::{Order, Shape};
use crate::print_sum;
use std::io::{self, ErrorKind};
use tinystr::TinyAsciiStr;
use tinystr_packed::SortedTable;

pub fn run(rt: &HostRuntime) -> io::Result<()> {
    count_at::<8, 7>(rt)?;
    count_at::<16, 6>(rt)?;
    count_at::<24, 7>(rt)
}

// Prefixes of `P` bytes.
fn count_at<const N: usize, const P: usize>(rt: &HostRuntime) -> io::Result<()>
    requires above { 0 < N }
    requires below { N < 2 ^ 63 }
    requires prefix { P < 2 ^ 63 }
{
    let shape = Shape {
        count: 1_000,
        alike: 1,
    };
    let records = shape.records::<N>(rt.alloc())?;
    let Ok(sorted) = SortedTable::<N>::from_bytes(records.as_slice()) else {
        return Err(ErrorKind::Other.into());
    };
    let mut keys = shape.keys::<N>(rt.alloc(), Order::Random)?;
    for key in &mut keys {
        *key = key.resize::<P>().resize::<N>();
    }
    let sum = counted_prefixes(&sorted, keys.as_slice());
    print_sum(rt, "with_prefix", N, 1_000, "prefixes", sum)
}

#[inline(never)]
fn counted_prefixes<const N: usize>(
    sorted: &SortedTable<'_, N>,
    prefixes: &[TinyAsciiStr<N>],
) -> usize {
    let mut sum = 0usize;
    for prefix in prefixes {
        sum = sum.wrapping_add(sorted.with_prefix(prefix).len());
    }
    sum
}
