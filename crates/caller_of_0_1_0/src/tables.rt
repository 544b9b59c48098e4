//! Country codes in a packed table, as `ATCHDE`, looked up by text.

ghost use Rattle.std.specs.Prelude.{◌≡◌, ◌↔◌, All, Contains, IfSome, IsSome, IsTrue, Some, length, slice_get};
ghost use Rattle.std.specs.List.{flat_map};
ghost use Rattle.tinystr_words.specs.Classes.{ask, is_upper};
ghost use Rattle.tinystr_words.specs.Text.{IsStrictText, pad};
ghost use Rattle.caller_of_0_1_0.specs.Countries.{AreCountryCodes, IsCountryCode};

use tinystr::TinyAsciiStr;
use tinystr_packed::laws::texts_once;
use tinystr_packed::{SortedTable, Table};

// Whether a text is two capital letters.
fn is_country_code(text: &TinyAsciiStr<2>) -> bool
    ensures { IsTrue result ↔ IsCountryCode text.now }
{
    text.len() == 2 && text.is_ascii_alphabetic_uppercase()
}

// Whether each text of a table is two capital letters.
fn are_country_codes(table: &Table<'_, 2>) -> bool
    ensures { IsTrue result ↔ All IsCountryCode table.now }
{
    table.iter().all(|text| is_country_code(&text))
}

/// The codes of a file, which has to have two capital letters for each country, in order and each once.
pub fn countries(file: &[u8]) -> Option<SortedTable<'_, 2>>
    ensures bytes { IfSome result (λ codes. file.now ≡ flat_map (λ t. pad t 2) codes) }
    ensures codes { IfSome result (λ codes. All IsCountryCode codes) }
    ensures exact { IsSome result ↔ AreCountryCodes file.now }
{
    texts_once();
    let table = match Table::new(file) {
        Ok(table) => table,
        Err(_) => return None,
    };
    if !are_country_codes(&table) {
        return None;
    }
    match SortedTable::new(table) {
        Ok(codes) => Some(codes),
        Err(_) => None,
    }
}

/// The index of a country's code, if it is one of them.
pub fn index_of_country(codes: &SortedTable<'_, 2>, code: &str) -> Option<usize>
    ensures found { IfSome result (λ index. slice_get codes.now index ≡ Some code.now) }
    ensures exact { IsSome result ↔ (IsStrictText code.now 2 × Contains codes.now code.now) }
{
    let code = TinyAsciiStr::try_from_str(code).ok()?;
    codes.binary_search(&code).ok()
}
