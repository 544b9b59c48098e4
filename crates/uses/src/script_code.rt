//! A script code, tested as one word.

ghost use Rattle.std.specs.Prelude.{◌≡◌, ◌↔◌, length, IsTrue};
ghost use Rattle.tinystr_words.specs.Classes.{ask, is_lower, is_upper};
ghost use Rattle.tinystr_words.specs.Text.{IsPaddedText, text_of};

use tinystr_words::int_ops::Aligned4;

/// Whether a text of at most four bytes is a script code as it is written, as `Latn`.
pub fn is_script_code(code: &[u8; 4]) -> bool
    requires { IsPaddedText code.now 4 }
    ensures { IsTrue result ↔ ((length (text_of code.now) ≡ 4)
        × IsTrue (ask is_upper is_lower (text_of code.now))) }
{
    let word = Aligned4::from_ascii_bytes(code);
    word.len() == 4 && word.is_ascii_alphabetic_titlecase()
}
