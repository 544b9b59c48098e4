//! The rate of a currency, read from a line as `eur=11042`.

ghost use Rattle.std.specs.Prelude.{◌≡◌, ◌<◌, ◌≤◌, ◌^◌, ◌++◌, ◌∷◌, ℕ, List, Contains, IsTrue, None, Some, SomeIff, length};
ghost use Rattle.std.specs.Fmt.{decimal};
ghost use Rattle.std.specs.List.{list_all};
ghost use Rattle.tinystr.specs.Case.{uppercase};
ghost use Rattle.tinystr.specs.Classes.{is_alphabetic};

use tinystr::TinyAsciiStr;
use tinystr_words::split_at_byte;

// At most three letters, in uppercase; `None` of any other bytes.
#[tactic(auto, using(tinystr_words::proofs::ForCallers::class_fits, tinystr_words::proofs::ForCallers::same_as_std))]
fn read_code(bytes: &[u8]) -> Option<TinyAsciiStr<3>>
    ensures { SomeIff result (IsTrue (list_all is_alphabetic bytes.now) × (length bytes.now ≤ 3)) (uppercase bytes.now) }
{
    let Ok(code) = TinyAsciiStr::<3>::try_from_utf8(bytes) else {
        return None;
    };
    if code.is_ascii_alphabetic() {
        return Some(code.to_ascii_uppercase());
    }
    None
}

// The number whose decimal text the bytes are.
fn read_number(bytes: &[u8]) -> Option<u32>
    ensures { (n : ℕ) → n < 2 ^ 32 → bytes.now ≡ decimal n → result ≡ Some n }
{
    match TinyAsciiStr::<10>::try_from_utf8(bytes) {
        Ok(digits) => digits.as_str().parse().ok(),
        Err(_) => None,
    }
}

// The code and the number of the two parts of a line.
fn read_parts(code: &[u8], number: &[u8]) -> Option<(TinyAsciiStr<3>, u32)>
    ensures { (n : ℕ) → IsTrue (list_all is_alphabetic code.now) → length code.now ≤ 3 → n < 2 ^ 32 →
        number.now ≡ decimal n → result ≡ Some (uppercase code.now, n) }
{
    match (read_code(code), read_number(number)) {
        (Some(code), Some(number)) => Some((code, number)),
        _ => None,
    }
}

/// The code of a line in uppercase, and its rate. `None` of a line without an equals sign.
pub fn read_rate(line: &[u8]) -> Option<(TinyAsciiStr<3>, u32)>
    ensures rate { (code : List ℕ) (n : ℕ) → IsTrue (list_all is_alphabetic code) → length code ≤ 3 → n < 2 ^ 32 →
        line.now ≡ code ++ 0x3d ∷ decimal n → result ≡ Some (uppercase code, n) }
    ensures none { ¬ Contains line.now 0x3d → result ≡ None }
{
    match split_at_byte(line, b'=') {
        Some((code, number)) => read_parts(code, number),
        None => None,
    }
}
