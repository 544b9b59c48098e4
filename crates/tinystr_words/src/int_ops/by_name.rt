//! The questions and case changes of the word types, each by its name.

ghost use Rattle.std.specs.Prelude.{◌≡◌};
ghost use Rattle.tinystr_words.specs.Text.{pad};
ghost use Rattle.tinystr_words.specs.Classes.{ask, is_upper, is_lower, is_digit, is_alphabetic, is_alphanumeric, is_not_upper, is_not_lower};
ghost use Rattle.tinystr_words.specs.Case.{lowercase, titlecase, uppercase};

use crate::int_ops::Aligned;
use crate::question::{Case, Question};
use crate::word::Word;

impl<T: Word<LEN>, const LEN: usize> Aligned<T, LEN> {
    /// Whether each byte is a letter. This and the other questions are true of the empty text.
    #[inline(always)]
    pub fn is_ascii_alphabetic(&self) -> bool
        ensures { result ≡ ask is_alphabetic is_alphabetic self.now }
    {
        self.ask(Question::Alphabetic)
    }

    /// Whether each byte is a letter or a digit.
    #[inline(always)]
    pub fn is_ascii_alphanumeric(&self) -> bool
        ensures { result ≡ ask is_alphanumeric is_alphanumeric self.now }
    {
        self.ask(Question::Alphanumeric)
    }

    /// Whether each byte is a digit.
    #[inline(always)]
    pub fn is_ascii_numeric(&self) -> bool
        ensures { result ≡ ask is_digit is_digit self.now }
    {
        self.ask(Question::Numeric)
    }

    /// Whether no byte is an uppercase letter.
    #[inline(always)]
    pub fn is_ascii_lowercase(&self) -> bool
        ensures { result ≡ ask is_not_upper is_not_upper self.now }
    {
        self.ask(Question::Lowercase)
    }

    /// Whether the first byte isn't a lowercase letter and no later byte is an uppercase letter.
    #[inline(always)]
    pub fn is_ascii_titlecase(&self) -> bool
        ensures { result ≡ ask is_not_lower is_not_upper self.now }
    {
        self.ask(Question::Titlecase)
    }

    /// Whether no byte is a lowercase letter.
    #[inline(always)]
    pub fn is_ascii_uppercase(&self) -> bool
        ensures { result ≡ ask is_not_lower is_not_lower self.now }
    {
        self.ask(Question::Uppercase)
    }

    /// Whether each byte is a lowercase letter.
    #[inline(always)]
    pub fn is_ascii_alphabetic_lowercase(&self) -> bool
        ensures { result ≡ ask is_lower is_lower self.now }
    {
        self.ask(Question::AlphabeticLowercase)
    }

    /// Whether the first byte is an uppercase letter and each later byte is a lowercase letter.
    #[inline(always)]
    pub fn is_ascii_alphabetic_titlecase(&self) -> bool
        ensures { result ≡ ask is_upper is_lower self.now }
    {
        self.ask(Question::AlphabeticTitlecase)
    }

    /// Whether each byte is an uppercase letter.
    #[inline(always)]
    pub fn is_ascii_alphabetic_uppercase(&self) -> bool
        ensures { result ≡ ask is_upper is_upper self.now }
    {
        self.ask(Question::AlphabeticUppercase)
    }

    /// The text with each letter in lowercase, and then NULs.
    #[inline(always)]
    pub fn to_ascii_lowercase(&self) -> [u8; LEN]
        ensures { result ≡ pad (lowercase self.now) LEN }
    {
        self.in_case(Case::Lower)
    }

    /// The text with its first byte, if it is a letter, in uppercase and each later letter in lowercase, and then NULs.
    #[inline(always)]
    pub fn to_ascii_titlecase(&self) -> [u8; LEN]
        ensures { result ≡ pad (titlecase self.now) LEN }
    {
        self.in_case(Case::Title)
    }

    /// The text with each letter in uppercase, and then NULs.
    #[inline(always)]
    pub fn to_ascii_uppercase(&self) -> [u8; LEN]
        ensures { result ≡ pad (uppercase self.now) LEN }
    {
        self.in_case(Case::Upper)
    }
}
