//! Each line and its reply.

use crate::{INPUT, OUTPUT};
use std::alloc::Global;
use std::test::Fail;
use tinystr_lines::engine::{RunError, run};
use tinystr_lines::reply::push_large_number;

// What `run` writes for an input.
fn output(alloc: Global, input: &[u8]) -> Result<Vec<u8>, RunError> {
    let mut out = Vec::new(alloc);
    run(alloc, &mut &input[..], &mut out)?;
    Ok(out)
}

// Whether the reply to the input before the row's first tab is what follows the tab.
fn is_answered(alloc: Global, row: &[u8]) -> Result<bool, RunError> {
    let mut parts = row.splitn(2, |byte| *byte == b'\t');
    let (Some(input), Some(replies)) = (parts.next(), parts.next()) else {
        return Ok(false);
    };
    Ok(output(alloc, input)?.as_slice() == replies)
}

#[test]
fn replies_to_every_line(rt: HostRuntime) -> Result<(), Fail> {
    for row in [
        &b"\t"[..],
        b"\n\n\tbad line\nbad line\n",
        b"4 len abc\t3\n",
        b"4 lower tEsT\n4 text abcde\n16 len MacintoshOSX2019\n0 text\n\ttest\ntoo long 5 > 4\n16\n\n",
    ] {
        assert!(rt; is_answered(rt.alloc(), row)?, "{}", row.escape_ascii());
    }
    assert!(rt; output(rt.alloc(), INPUT)?.as_slice() == OUTPUT);
    Ok(())
}

// Reads take at most 65,536 bytes, and cut lines.
#[test]
fn an_input_of_many_reads_is_answered_to_its_end(rt: HostRuntime) -> Result<(), Fail> {
    let input = b"4 len abc\n".repeat(rt.alloc(), 20_000)?;
    let replies = b"3\n".repeat(rt.alloc(), 20_000)?;
    assert!(rt; output(rt.alloc(), &input)? == replies);
    Ok(())
}

// A reply has a number above 2^32 only if the line has that number of bytes.
#[test]
fn a_number_has_all_its_digits(rt: HostRuntime) -> Result<(), Fail> {
    for (number, digits) in [
        (1 << 32, &b"4294967296"[..]),
        (usize::MAX, b"18446744073709551615"),
    ] {
        let mut out = Vec::new(rt.alloc());
        push_large_number(&mut out, number)?;
        assert!(rt; out.as_slice() == digits, "{number}");
    }
    Ok(())
}

// Each row is a line, a tab and the reply, and ends at a line feed.
const ROWS: &[u8] = b"4\tbad line
\0\tbad line
\r\tbad line
   \tbad capacity
 4 len a\tbad capacity
4 \tbad command
4  len a\tbad command
4 text  a\t a
4 len abc\r\t4
7 shout\tbad capacity
0 shout\tbad command
4 LEN a\tbad command
04 len a\tbad capacity
+4 len a\tbad capacity
99999999999999999999 len a\tbad capacity
0 len a\ttoo long 1 > 0
4 len \x80\x80\x80\x80\x80\ttoo long 5 > 4
32 len aaaaaaaaaaaaaaaaaaaaaaaaaaaaaaaaa\ttoo long 33 > 32
4 len \xFF\tnon ascii
4 text \0\x80\tnon ascii
4 text a\0\tcontains null
17 len MacintoshOSX2019\t16
32 text abc\tabc
17 title abcdefghijklmnopq\tAbcdefghijklmnopq
16 title MacintoshOSX2019\tMacintoshosx2019
8 titlecase 001z\ttrue
8 alphabetic_titlecase 001z\tfalse
0 uppercase\ttrue
2 lossy toolong\tto
0 lossy abc\t
4 lossy \x61\0\xC3\xA9\x7A\ta???
3 records GBPUSD\tok 2
3 records\tok 0
1 records \0\0\0\tok 3
3 records GBPUSDx\tbad length 7
32 records abc\tbad length 3
2 records ab\x80\tbad length 3
3 records GB\0\0A\0\tbad record 1 contains null
1 records \x80\tbad record 0 non ascii
0 records\tbad capacity
4 locale EN_latn-us\ten-Latn-US
0 locale es-419\tes-419
32 locale abcdefgh-Latn-419\tabcdefgh-Latn-419
7 locale en\tbad capacity
4 locale\tinvalid language
4 locale en US\tinvalid language
4 locale en\x80\tinvalid language
4 locale en-US\0\tinvalid subtag
17 locale en--US\tinvalid subtag
";

#[test]
fn each_line_has_its_reply(rt: HostRuntime) -> Result<(), Fail> {
    let mut rows = 0usize;
    for row in ROWS.split_inclusive(|byte| *byte == b'\n') {
        assert!(rt; is_answered(rt.alloc(), row)?, "{}", row.escape_ascii());
        rows = rows.saturating_add(1);
    }
    assert!(rt; rows == 49);
    Ok(())
}
