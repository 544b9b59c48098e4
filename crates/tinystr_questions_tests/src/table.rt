//! The texts that words and values are tested on.

use std::alloc::{AllocError, Global};

/// A text and what is known of it.
#[derive(Clone, Copy)]
pub struct Row {
    /// Characters, each a byte from 1 to 127.
    pub text: &'static str,
    /// Nine letters, `y` or `n` for each question: alphabetic, alphanumeric, numeric, lowercase, titlecase, uppercase,
    /// and alphabetic in lowercase, titlecase, uppercase.
    pub answers: &'static str,
    /// The text in lowercase.
    pub lower: &'static str,
    /// The text in titlecase: its first character in uppercase and each later one in lowercase.
    pub title: &'static str,
    /// The text in uppercase.
    pub upper: &'static str,
}

// A line for each row, its fields in their order, of at most 17 characters each. Most texts are those that the Rust
// crate's own tests use. None of the answers was made by the calls that are tested on them. It is one literal, since
// a proof reads each literal that it meets.
const TEXTS: &str = "\
|yyyyyyyyy|||
Latn|yynnynnyn|latn|Latn|LATN
laTn|yynnnnnnn|latn|Latn|LATN
windows|yynynnynn|windows|Windows|WINDOWS
AR|yynnnynny|ar|Ar|AR
Hans|yynnynnyn|hans|Hans|HANS
macos|yynynnynn|macos|Macos|MACOS
AT|yynnnynny|at|At|AT
infiniband|yynynnynn|infiniband|Infiniband|INFINIBAND
FR|yynnnynny|fr|Fr|FR
en|yynynnynn|en|En|EN
Cyrl|yynnynnyn|cyrl|Cyrl|CYRL
FromIntegral|yynnnnnnn|fromintegral|Fromintegral|FROMINTEGRAL
NO|yynnnynny|no|No|NO
419|nyyyyynnn|419|419|419
MacintoshOSX2019|nynnnnnnn|macintoshosx2019|Macintoshosx2019|MACINTOSHOSX2019
a3z|nynynnnnn|a3z|A3z|A3Z
A3z|nynnynnnn|a3z|A3z|A3Z
A3Z|nynnnynnn|a3z|A3z|A3Z
a3Z|nynnnnnnn|a3z|A3z|A3Z
3A|nynnnynnn|3a|3a|3A
3Z|nynnnynnn|3z|3z|3Z
3a|nynyynnnn|3a|3a|3A
3z|nynyynnnn|3z|3z|3Z
@@[`{|nnnyyynnn|@@[`{|@@[`{|@@[`{
UK|yynnnynny|uk|Uk|UK
E12|nynnyynnn|e12|E12|E12
tEsT|yynnnnnnn|test|Test|TEST
New York|nnnnnnnnn|new york|New york|NEW YORK
001z|nynyynnnn|001z|001z|001Z
A15b|nynnynnnn|a15b|A15b|A15B
[3@w|nnnyynnnn|[3@w|[3@w|[3@W
abcdefghijklmnopq|yynynnynn|abcdefghijklmnopq|Abcdefghijklmnopq|ABCDEFGHIJKLMNOPQ
";

// Lines of texts, some of them longer, that fill a word, end it or begin the next one.
const EDGES: &str = "\
Abcdefghijklmnopq|yynnynnyn|abcdefghijklmnopq|Abcdefghijklmnopq|ABCDEFGHIJKLMNOPQ
AAAAAAAAAAAAAAAA|yynnnynny|aaaaaaaaaaaaaaaa|Aaaaaaaaaaaaaaaa|AAAAAAAAAAAAAAAA
aaaaaaaaaaaaaaaaaaaaaaaaaaaaaaaaZ|yynnnnnnn|aaaaaaaaaaaaaaaaaaaaaaaaaaaaaaaaz|Aaaaaaaaaaaaaaaaaaaaaaaaaaaaaaaaz|AAAAAAAAAAAAAAAAAAAAAAAAAAAAAAAAZ
Aaaaaaaaaaaaaaaaaaaaaaaaaaaaaaaaa|yynnynnyn|aaaaaaaaaaaaaaaaaaaaaaaaaaaaaaaaa|Aaaaaaaaaaaaaaaaaaaaaaaaaaaaaaaaa|AAAAAAAAAAAAAAAAAAAAAAAAAAAAAAAAA
\x7f\x7f\x7f\x7f\x7f\x7f\x7f\x7f\x7f\x7f\x7f\x7f\x7f\x7f\x7f\x7f|nnnyyynnn|\x7f\x7f\x7f\x7f\x7f\x7f\x7f\x7f\x7f\x7f\x7f\x7f\x7f\x7f\x7f\x7f|\x7f\x7f\x7f\x7f\x7f\x7f\x7f\x7f\x7f\x7f\x7f\x7f\x7f\x7f\x7f\x7f|\x7f\x7f\x7f\x7f\x7f\x7f\x7f\x7f\x7f\x7f\x7f\x7f\x7f\x7f\x7f\x7f
\x7f\x7f\x7f\x7f|nnnyyynnn|\x7f\x7f\x7f\x7f|\x7f\x7f\x7f\x7f|\x7f\x7f\x7f\x7f
";

// The row of a line. A field that the line lacks is empty, and no text has the empty answers.
fn row_of(line: &'static str) -> Row {
    let mut fields = line.split('|');
    Row {
        text: fields.next().unwrap_or(""),
        answers: fields.next().unwrap_or(""),
        lower: fields.next().unwrap_or(""),
        title: fields.next().unwrap_or(""),
        upper: fields.next().unwrap_or(""),
    }
}

fn rows_of(alloc: Global, lines: &'static str) -> Result<Vec<Row>, AllocError> {
    let mut rows = Vec::new(alloc);
    for line in lines.lines() {
        rows.push(row_of(line))?;
    }
    Ok(rows)
}

/// The rows of the table: 33 texts of at most 17 characters.
pub fn table_rows(alloc: Global) -> Result<Vec<Row>, AllocError> {
    rows_of(alloc, TEXTS)
}

/// The rows of six texts, some of them longer, that fill a word, end it or begin the next one.
pub fn edge_rows(alloc: Global) -> Result<Vec<Row>, AllocError> {
    rows_of(alloc, EDGES)
}
