//! Questions and case changes.

ghost use Rattle.std.specs.Prelude.{◌≡◌};
ghost use Rattle.tinystr_words.specs.Classes.{ask, is_alphabetic, is_alphanumeric, is_digit, is_lower, is_upper, is_not_lower, is_not_upper};
ghost use Rattle.tinystr_words.specs.Case.{lowercase, titlecase, uppercase};
ghost use Rattle.tinystr_words.specs.Questions.{ask_question, in_case};

use crate::ascii::TinyAsciiStr;
use tinystr_words::{Case, Question, padded};

impl<const N: usize> TinyAsciiStr<N> {
    /// Answers the given question: `ask(Question::Titlecase)` is `is_ascii_titlecase()`.
    ///
    /// ```rust
    /// assert!(rt; tinystr!(4, "Latn")?.ask(Question::AlphabeticTitlecase));
    /// ```
    #[inline(always)]
    pub fn ask(&self, question: Question) -> bool
        ensures { result ≡ ask_question question self.now }
    {
        padded::ask(&self.bytes, question)
    }

    /// The text in the given case: `in_case(Case::Title)` is `to_ascii_titlecase()`.
    ///
    /// ```rust
    /// assert_eq!(rt; tinystr!(4, "lATN")?.in_case(Case::Title).as_str(), "Latn");
    /// ```
    #[tactic(auto, using(crate::proofs::Errors::cased))]
    #[inline(always)]
    pub fn in_case(self, case: Case) -> Self
        ensures { result ≡ in_case case self.entry }
    {
        let mut bytes = self.bytes;
        padded::put_in_case(&mut bytes, case);
        TinyAsciiStr { bytes }
    }

    /// Whether each byte is a letter. Like the other questions, it is true of the empty text.
    ///
    /// ```rust
    /// assert!(rt; tinystr!(8, "EUR")?.is_ascii_alphabetic());
    /// assert!(rt; !tinystr!(8, "en-US")?.is_ascii_alphabetic());
    /// assert!(rt; tinystr!(8, "")?.is_ascii_alphabetic());
    /// ```
    #[inline]
    pub fn is_ascii_alphabetic(&self) -> bool
        ensures { result ≡ ask is_alphabetic is_alphabetic self.now }
    {
        self.ask(Question::Alphabetic)
    }

    /// Whether each byte is a letter or a digit.
    #[inline]
    pub fn is_ascii_alphanumeric(&self) -> bool
        ensures { result ≡ ask is_alphanumeric is_alphanumeric self.now }
    {
        self.ask(Question::Alphanumeric)
    }

    /// Whether each byte is a digit.
    #[inline]
    pub fn is_ascii_numeric(&self) -> bool
        ensures { result ≡ ask is_digit is_digit self.now }
    {
        self.ask(Question::Numeric)
    }

    /// Whether no byte is an uppercase letter. Other bytes pass.
    ///
    /// ```rust
    /// assert!(rt; tinystr!(8, "utf-8")?.is_ascii_lowercase());
    /// assert!(rt; !tinystr!(8, "UTF-8")?.is_ascii_lowercase());
    /// ```
    #[inline]
    pub fn is_ascii_lowercase(&self) -> bool
        ensures { result ≡ ask is_not_upper is_not_upper self.now }
    {
        self.ask(Question::Lowercase)
    }

    /// Whether the first byte isn't a lowercase letter and no later byte is an uppercase letter. Other bytes pass.
    #[inline]
    pub fn is_ascii_titlecase(&self) -> bool
        ensures { result ≡ ask is_not_lower is_not_upper self.now }
    {
        self.ask(Question::Titlecase)
    }

    /// Whether no byte is a lowercase letter. Other bytes pass.
    #[inline]
    pub fn is_ascii_uppercase(&self) -> bool
        ensures { result ≡ ask is_not_lower is_not_lower self.now }
    {
        self.ask(Question::Uppercase)
    }

    /// Whether each byte is a lowercase letter.
    #[inline]
    pub fn is_ascii_alphabetic_lowercase(&self) -> bool
        ensures { result ≡ ask is_lower is_lower self.now }
    {
        self.ask(Question::AlphabeticLowercase)
    }

    /// Whether the first byte is an uppercase letter and each later byte is a lowercase letter.
    ///
    /// ```rust
    /// assert!(rt; tinystr!(4, "Latn")?.is_ascii_alphabetic_titlecase());
    /// assert!(rt; !tinystr!(4, "LATN")?.is_ascii_alphabetic_titlecase());
    /// ```
    #[inline]
    pub fn is_ascii_alphabetic_titlecase(&self) -> bool
        ensures { result ≡ ask is_upper is_lower self.now }
    {
        self.ask(Question::AlphabeticTitlecase)
    }

    /// Whether each byte is an uppercase letter.
    #[inline]
    pub fn is_ascii_alphabetic_uppercase(&self) -> bool
        ensures { result ≡ ask is_upper is_upper self.now }
    {
        self.ask(Question::AlphabeticUppercase)
    }

    /// The text with each letter in lowercase.
    #[inline]
    pub fn to_ascii_lowercase(self) -> Self
        ensures { result ≡ lowercase self.entry }
    {
        self.in_case(Case::Lower)
    }

    /// The text with its first byte in uppercase, if that is a letter, and each later letter in lowercase.
    ///
    /// ```rust
    /// assert_eq!(rt; tinystr!(8, "nEW yORK")?.to_ascii_titlecase().as_str(), "New york");
    /// ```
    #[inline]
    pub fn to_ascii_titlecase(self) -> Self
        ensures { result ≡ titlecase self.entry }
    {
        self.in_case(Case::Title)
    }

    /// The text with each letter in uppercase.
    #[inline]
    pub fn to_ascii_uppercase(self) -> Self
        ensures { result ≡ uppercase self.entry }
    {
        self.in_case(Case::Upper)
    }
}
