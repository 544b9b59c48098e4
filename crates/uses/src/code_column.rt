//! A column of codes, each looked up in a sorted table.

ghost use Rattle.std.specs.Prelude.{◌≡◌, IfOk, map};
ghost use Rattle.std.specs.List.{position};
ghost use Rattle.std.specs.Str.{bytes_eq};

use std::alloc::{AllocError, Global};
use tinystr::TinyAsciiStr;
use tinystr_packed::SortedTable;

/// The index of each code in a table, or `None` if the table doesn't have it. It fails only if an allocation fails.
pub fn indices_of(
    alloc: Global,
    table: &SortedTable<'_, 3>,
    codes: &[TinyAsciiStr<3>],
) -> Result<Vec<Option<usize>>, AllocError>
    ensures { IfOk result (λ indices. indices.items ≡ map (λ code. position (bytes_eq code) table.now) codes.now) }
{
    table
        .binary_search_each(codes)
        .map(|answer| answer.ok())
        .collect(alloc)
}
