//! The sorted set of the identifiers in a list of tags.

ghost use Rattle.std.specs.Prelude.{IfOk};
ghost use Rattle.std.specs.BTreeSet.{IsFromIterResult};
ghost use Rattle.std.specs.Cmp.Lexicographic.{slice_cmp};
ghost use Rattle.std.specs.List.{filter_map};
ghost use Rattle.std.specs.Ordering.{nat_cmp};
ghost use Rattle.subtags.specs.Grammar.{canonical_of};

use std::alloc::{AllocError, Global};
use std::collections::BTreeSet;
use subtags::LangId;

/// The identifiers of tags in any spelling, in order and each once. What isn't a tag is left out. It fails only if an
/// allocation fails.
pub fn ids_of(alloc: Global, tags: &[&str]) -> Result<BTreeSet<LangId>, AllocError>
    ensures { IfOk result (IsFromIterResult (slice_cmp nat_cmp)
        (filter_map (λ tag. canonical_of tag.now) tags.now)) }
{
    tags.iter()
        .filter_map(|tag| tag.parse().ok())
        .collect(alloc)
}
