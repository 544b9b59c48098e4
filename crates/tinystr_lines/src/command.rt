//! The commands of a line, and the fields that name them.

ghost use Rattle.std.specs.Prelude.{◌≡◌, length};
ghost use Rattle.tinystr_lines.specs.Reply as Spec;

use self::Command::{Locale, Lossy, OnText, Records};
use self::TextCall::{Ask, Change, Len, Text};
use tinystr::Case::{Lower, Title, Upper};
use tinystr::Question::{
    Alphabetic, AlphabeticLowercase, AlphabeticTitlecase, AlphabeticUppercase, Alphanumeric,
    Lowercase, Numeric, Titlecase, Uppercase,
};
use tinystr::{Case, Question};

/// The command of a line.
#[derive(Clone, Copy)]
pub enum Command {
    /// A call on the text that the strict reader takes.
    OnText(TextCall),
    /// The text that the lossy reader makes.
    Lossy,
    /// Whether the bytes are packed records.
    Records,
    /// The canonical text of a language identifier.
    Locale,
}

/// A call on a text.
#[derive(Clone, Copy)]
pub enum TextCall {
    /// The text itself.
    Text,
    /// Its length.
    Len,
    /// The answer to a question.
    Ask(Question),
    /// The text in a case.
    Change(Case),
}

// The fields that name commands, by their length.
const NAMES_OF_3: [([u8; 3], Command); 1] = [(*b"len", OnText(Len))];

const NAMES_OF_4: [([u8; 4], Command); 1] = [(*b"text", OnText(Text))];

const NAMES_OF_5: [([u8; 5], Command); 4] = [
    (*b"lower", OnText(Change(Lower))),
    (*b"title", OnText(Change(Title))),
    (*b"upper", OnText(Change(Upper))),
    (*b"lossy", Lossy),
];

const NAMES_OF_6: [([u8; 6], Command); 1] = [(*b"locale", Locale)];

const NAMES_OF_7: [([u8; 7], Command); 2] = [
    (*b"numeric", OnText(Ask(Numeric))),
    (*b"records", Records),
];

const NAMES_OF_9: [([u8; 9], Command); 3] = [
    (*b"lowercase", OnText(Ask(Lowercase))),
    (*b"titlecase", OnText(Ask(Titlecase))),
    (*b"uppercase", OnText(Ask(Uppercase))),
];

const NAMES_OF_10: [([u8; 10], Command); 1] = [(*b"alphabetic", OnText(Ask(Alphabetic)))];

const NAMES_OF_12: [([u8; 12], Command); 1] = [(*b"alphanumeric", OnText(Ask(Alphanumeric)))];

const NAMES_OF_20: [([u8; 20], Command); 3] = [
    (*b"alphabetic_lowercase", OnText(Ask(AlphabeticLowercase))),
    (*b"alphabetic_titlecase", OnText(Ask(AlphabeticTitlecase))),
    (*b"alphabetic_uppercase", OnText(Ask(AlphabeticUppercase))),
];

// The command that a field names in a table of names as long as the field, whose known length makes a comparison fast.
#[inline(always)]
fn named<const N: usize>(mut table: &[([u8; N], Command)], field: &[u8]) -> Option<Command>
    requires { length field.now ≡ N }
    ensures { result ≡ Spec.named table.entry.now field.now }
{
    let field = field.first_chunk::<N>()?;
    while let [row, rest @ ..] = table {
        if *field == row.0 {
            return Some(row.1);
        }
        table = rest;
    }
    None
}

impl Command {
    /// The command that a field names, by its one spelling in lowercase.
    #[tactic(auto, unfolding(crate::specs::Reply::command_of))]
    pub fn parse(field: &[u8]) -> Option<Command>
        ensures { result ≡ Spec.command_of field.now }
    {
        match field.len() {
            3 => named(&NAMES_OF_3, field),
            4 => named(&NAMES_OF_4, field),
            5 => named(&NAMES_OF_5, field),
            6 => named(&NAMES_OF_6, field),
            7 => named(&NAMES_OF_7, field),
            9 => named(&NAMES_OF_9, field),
            10 => named(&NAMES_OF_10, field),
            12 => named(&NAMES_OF_12, field),
            20 => named(&NAMES_OF_20, field),
            _ => None,
        }
    }
}
