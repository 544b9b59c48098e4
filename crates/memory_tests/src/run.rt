//! `run` writes nothing if an allocation fails, and reports a failed read first.

use std::io::{self, ErrorKind, Read, Write};
use std::test::Fail;
use tinystr_lines::engine::{RunError, run};
use tinystr_lines_tests::{INPUT, OUTPUT};

#[test]
fn a_failed_allocation_writes_nothing(rt: HostRuntime) -> Result<(), Fail> {
    let mut buffer = [0u8; OUTPUT.len()];
    let mut rest = &mut buffer[..];
    let outcome = run(rt.alloc(), &mut &INPUT[..], &mut rest);
    let left = rest.len();
    match outcome {
        Ok(()) => println!(rt; "run given")?,
        Err(fault) => {
            assert!(rt; matches!(fault, RunError::Memory));
            assert_eq!(rt; left, OUTPUT.len());
            println!(rt; "run refused")?;
            let mut rest = &mut buffer[..];
            run(rt.alloc(), &mut &INPUT[..], &mut rest)?;
        }
    }
    assert_eq!(rt; &buffer[..], OUTPUT);
    Ok(())
}

/// Gives its bytes, the last by itself, and then fails at each read.
#[derive(Drop)]
struct BrokenReader<'a> {
    bytes: &'a [u8],
}

impl Read for BrokenReader<'_> {
    fn read(&mut self, buf: &mut [u8]) -> io::Result<usize> {
        if self.bytes.is_empty() {
            return Err(ErrorKind::Other.into());
        }
        let most = (self.bytes.len() - 1).max(1).min(buf.len());
        self.bytes.read(&mut buf[..most])
    }
}

// One allocation is for the input, and its failure is reported immediately. All others are for replies.
#[test]
fn a_failed_read_is_reported_before_a_failed_reply(rt: HostRuntime) -> Result<(), Fail> {
    let mut buffer = [0u8; OUTPUT.len()];
    let mut rest = &mut buffer[..];
    let mut reader = BrokenReader { bytes: INPUT };
    let outcome = run(rt.alloc(), &mut reader, &mut rest);
    let left = rest.len();
    match outcome {
        Err(RunError::Read) => println!(rt; "input given")?,
        Err(fault) => {
            assert!(rt; matches!(fault, RunError::Memory));
            println!(rt; "input refused")?;
        }
        Ok(()) => assert!(rt; false),
    }
    assert_eq!(rt; left, OUTPUT.len());
    Ok(())
}

/// Gives line feeds, at most a thousand in each read, and then lines of a thousand bytes, one in each read.
#[derive(Drop)]
struct LongReader {
    line_feeds: usize,
    lines: usize,
    reads_at_the_end: usize,
}

impl Read for LongReader {
    fn read(&mut self, buf: &mut [u8]) -> io::Result<usize> {
        let most = buf.len().min(1_000);
        if self.line_feeds > 0 {
            let count = most.min(self.line_feeds);
            buf[..count].fill(b'\n');
            self.line_feeds -= count;
            Ok(count)
        } else if self.lines > 0 {
            buf[..most].fill(b'a');
            buf[most.saturating_sub(1)..most].fill(b'\n');
            self.lines -= 1;
            Ok(most)
        } else {
            self.reads_at_the_end = self.reads_at_the_end.saturating_add(1);
            Ok(0)
        }
    }
}

/// Counts the bytes that are written, and keeps none.
#[derive(Drop)]
struct CountingWriter {
    count: usize,
}

impl Write for CountingWriter {
    fn write(&mut self, buf: &[u8]) -> io::Result<usize> {
        self.count = self.count.saturating_add(buf.len());
        Ok(buf.len())
    }

    fn flush(&mut self) -> io::Result<()> {
        Ok(())
    }
}

// Each line gets nine bytes. The memory of these replies is free when the rest is read and kept:
// `scripts/checks/refused-memory` limits how many bytes are in use.
#[test]
fn the_replies_are_dropped_before_the_remainder_is_kept(rt: HostRuntime) -> Result<(), Fail> {
    let mut reader = LongReader {
        line_feeds: 30_000,
        lines: 90,
        reads_at_the_end: 0,
    };
    let mut writer = CountingWriter { count: 0 };
    match run(rt.alloc(), &mut reader, &mut writer) {
        Ok(()) => {
            assert!(rt; writer.count == 270_810 && reader.reads_at_the_end == 1);
            println!(rt; "long given")?;
        }
        Err(fault) => {
            assert!(rt; matches!(fault, RunError::Memory) && writer.count == 0);
            println!(rt; "long refused")?;
        }
    }
    Ok(())
}
