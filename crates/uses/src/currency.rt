//! An ordered table of currencies, looked up by code.

ghost use Rattle.std.specs.Prelude.{◌≡◌, None};
ghost use Rattle.std.specs.BTreeMap.{get};
ghost use Rattle.std.specs.Cmp.Lexicographic.{slice_cmp};
ghost use Rattle.std.specs.Ordering.{nat_cmp};
ghost use Rattle.tinystr.specs.Text.{IsStrictText};

use std::collections::BTreeMap;
use tinystr::TinyAsciiStr;

/// The decimal places of each currency, by its code of at most three characters.
pub type Places = BTreeMap<TinyAsciiStr<3>, u8>;

/// The decimal places of the currency of a code, as 2 of `EUR`; None if it isn't a code.
pub fn places_of(table: &Places, code: &str) -> Option<u8>
    ensures code { IsStrictText code.now 3 → result ≡ get (slice_cmp nat_cmp) table.now code.now }
    ensures no_code { ¬ IsStrictText code.now 3 → result ≡ None }
{
    let code = TinyAsciiStr::try_from_str(code).ok()?;
    table.get(&code).copied()
}
