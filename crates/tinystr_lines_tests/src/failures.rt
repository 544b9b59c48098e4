//! A read, a write or an allocation that fails.

ghost use Rattle.std.specs.Prelude.{Some};

use crate::{INPUT, OUTPUT};
use std::alloc::Global;
use std::io::{self, ErrorKind, Read, Write};
use std::test::Fail;
use tinystr_lines::engine::{RunError, run};

// The kinds of error that a caller may take for passing, or for the end of the input, and another.
const KINDS: [ErrorKind; 4] = [
    ErrorKind::Interrupted,
    ErrorKind::WouldBlock,
    ErrorKind::UnexpectedEof,
    ErrorKind::Other,
];

/// Gives one byte a read, fails once, after `failing_read` reads, and gives more bytes after that.
#[derive(Drop)]
struct FailingReader<'a> {
    bytes: &'a [u8],
    failing_read: usize,
    kind: ErrorKind,
    reads: usize,
}

impl Read for FailingReader<'_> {
    ghost remaining = { λ r. Some r.bytes.now };

    fn read(&mut self, buf: &mut [u8]) -> io::Result<usize> {
        let read = self.reads;
        self.reads = read.saturating_add(1);
        if read == self.failing_read {
            return Err(self.kind.into());
        }
        let most = buf.len().min(1);
        self.bytes.read(&mut buf[..most])
    }
}

/// What a `FailingWriter` answers where it fails.
#[derive(Clone, Copy, Debug, Drop)]
enum Fault {
    Error(ErrorKind),
    TakesNothing,
}

/// Takes one byte a write, fails once, after `failing_write` writes or at the first flush, and takes more after that.
#[derive(Drop)]
struct FailingWriter {
    taken: Vec<u8>,
    failing_write: usize,
    fault: Fault,
    flush_error: Option<ErrorKind>,
    writes: usize,
    flushes: usize,
}

impl Write for FailingWriter {
    ghost contents = { λ w. Some w.taken.items };

    fn write(&mut self, buf: &[u8]) -> io::Result<usize> {
        let write = self.writes;
        self.writes = write.saturating_add(1);
        if write == self.failing_write {
            return match self.fault {
                Fault::Error(kind) => Err(kind.into()),
                Fault::TakesNothing => Ok(0),
            };
        }
        let count = buf.len().min(1);
        self.taken.extend_from_slice(&buf[..count])?;
        Ok(count)
    }

    fn flush(&mut self) -> io::Result<()> {
        self.flushes = self.flushes.saturating_add(1);
        match self.flush_error.take() {
            Some(kind) => Err(kind.into()),
            None => Ok(()),
        }
    }
}

// A read or write that none comes to.
const NEVER: usize = usize::MAX;

fn failing_writer(
    alloc: Global,
    failing_write: usize,
    fault: Fault,
    flush_error: Option<ErrorKind>,
) -> FailingWriter {
    FailingWriter {
        taken: Vec::new(alloc),
        failing_write,
        fault,
        flush_error,
        writes: 0,
        flushes: 0,
    }
}

// Runs over a reader that fails so, and answers how often it was read, too.
fn run_and_count_reads(
    alloc: Global,
    failing_read: usize,
    kind: ErrorKind,
    writer: &mut FailingWriter,
) -> (Result<(), RunError>, usize) {
    let mut reader = FailingReader {
        bytes: INPUT,
        failing_read,
        kind,
        reads: 0,
    };
    let outcome = run(alloc, &mut reader, writer);
    (outcome, reader.reads)
}

#[test]
fn what_kept_a_run_from_its_end_is_printed_by_its_name(rt: HostRuntime) -> Result<(), Fail> {
    let errors = [RunError::Memory, RunError::Read, RunError::Write];
    let printed = format!(in rt.alloc(); "{errors:?}")?;
    assert!(rt; printed.as_str() == "[Memory, Read, Write]");
    Ok(())
}

// Whether a run does nothing after the failing read, or writes all where no read fails.
fn ends_at_the_failing_read(alloc: Global, failing_read: usize, kind: ErrorKind) -> bool {
    let mut writer = failing_writer(alloc, NEVER, Fault::TakesNothing, None);
    let (outcome, reads) = run_and_count_reads(alloc, failing_read, kind, &mut writer);
    // The last read finds the end.
    if failing_read <= INPUT.len() {
        matches!(outcome, Err(RunError::Read))
            && reads == failing_read + 1
            && writer.writes == 0
            && writer.flushes == 0
    } else {
        outcome.is_ok() && reads == INPUT.len() + 1 && writer.taken.as_slice() == OUTPUT
    }
}

#[test]
fn a_failed_read_writes_nothing(rt: HostRuntime) {
    for kind in KINDS {
        for failing_read in 0..INPUT.len() + 2 {
            let ends = ends_at_the_failing_read(rt.alloc(), failing_read, kind);
            assert!(rt; ends, "{kind:?} at read {failing_read}");
        }
    }
}

// Whether a run does nothing after the failing write or flush, or flushes once where none fails, and has written
// what the writer took.
fn ends_at_the_failing_write(
    alloc: Global,
    failing_write: usize,
    fault: Fault,
    flush_error: Option<ErrorKind>,
) -> bool {
    let mut writer = failing_writer(alloc, failing_write, fault, flush_error);
    let (outcome, reads) = run_and_count_reads(alloc, NEVER, ErrorKind::Other, &mut writer);
    let (writes, flushes) = if failing_write < OUTPUT.len() {
        (failing_write + 1, 0)
    } else {
        (OUTPUT.len(), 1)
    };
    let fails = flushes == 0 || flush_error.is_some();
    let is_answer = match outcome {
        Ok(()) => !fails,
        Err(error) => fails && matches!(error, RunError::Write),
    };
    is_answer
        && writer.taken.len() == failing_write
        && OUTPUT.starts_with(&writer.taken)
        && writer.writes == writes
        && writer.flushes == flushes
        && reads == INPUT.len() + 1
}

#[test]
fn a_failed_write_leaves_a_beginning(rt: HostRuntime) {
    for fault in [
        Fault::Error(ErrorKind::Interrupted),
        Fault::Error(ErrorKind::WouldBlock),
        Fault::Error(ErrorKind::UnexpectedEof),
        Fault::Error(ErrorKind::Other),
        Fault::TakesNothing,
    ] {
        for failing_write in 0..OUTPUT.len() {
            let ends = ends_at_the_failing_write(rt.alloc(), failing_write, fault, None);
            assert!(rt; ends, "{fault:?} at write {failing_write}");
        }
    }
}

// No write fails, since all is written before the failing one.
#[test]
fn a_failed_flush_comes_after_all_writes(rt: HostRuntime) {
    let all = OUTPUT.len();
    assert!(rt; ends_at_the_failing_write(rt.alloc(), all, Fault::TakesNothing, None));
    for kind in KINDS {
        let ends = ends_at_the_failing_write(rt.alloc(), all, Fault::TakesNothing, Some(kind));
        assert!(rt; ends, "{kind:?} at the flush");
    }
}

#[test]
fn an_output_is_written_whole_by_many_writes(rt: HostRuntime) -> Result<(), Fail> {
    let input = b"4 len abc\n".repeat(rt.alloc(), 2_000)?;
    let replies = b"3\n".repeat(rt.alloc(), 2_000)?;
    let mut writer = failing_writer(rt.alloc(), NEVER, Fault::TakesNothing, None);
    run(rt.alloc(), &mut &input[..], &mut writer)?;
    assert!(rt; writer.taken == replies && writer.flushes == 1);
    Ok(())
}

#[test]
fn a_run_that_writes_nothing_flushes(rt: HostRuntime) {
    let flush_error = Some(ErrorKind::Other);
    let mut writer = failing_writer(rt.alloc(), NEVER, Fault::TakesNothing, flush_error);
    let outcome = run(rt.alloc(), &mut &b""[..], &mut writer);
    assert!(rt; matches!(outcome, Err(RunError::Write)));
    assert!(rt; writer.writes == 0 && writer.flushes == 1);
}

/// Keeps the length of the longest buffer that it reads into, and has no bytes.
#[derive(Drop)]
struct MeasuringReader {
    longest: usize,
}

impl Read for MeasuringReader {
    fn read(&mut self, buf: &mut [u8]) -> io::Result<usize> {
        self.longest = self.longest.max(buf.len());
        Ok(0)
    }
}

#[test]
fn a_read_takes_up_to_65536_bytes(rt: HostRuntime) -> Result<(), Fail> {
    let mut reader = MeasuringReader { longest: 0 };
    let mut out = Vec::new(rt.alloc());
    run(rt.alloc(), &mut reader, &mut out)?;
    assert!(rt; reader.longest == 65_536);
    Ok(())
}
