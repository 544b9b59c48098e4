//! The rate of a currency, looked up by code in a hashed map.

ghost use Rattle.std.specs.Prelude.{◌≡◌, None};
ghost use Rattle.tinystr.specs.Text.{IsStrictText};
ghost use Rattle.tinystr_packed.specs.Map.{get};

use tinystr::TinyAsciiStr;
use tinystr_hashed::HashedMap;

/// The rate of the currency of a code of at most three characters; None if it has none, or isn't a code.
pub fn rate_of(rates: &HashedMap<'_, 3, 2>, code: &str) -> Option<[u8; 2]>
    ensures code { IsStrictText code.now 3 → result ≡ get rates.now code.now }
    ensures no_code { ¬ IsStrictText code.now 3 → result ≡ None }
{
    let code = TinyAsciiStr::try_from_str(code).ok()?;
    rates.get(&code).copied()
}
