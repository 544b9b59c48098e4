//! Reads the input, makes the replies to its lines, and writes them.

ghost use Rattle.std.specs.Prelude.{◌≡◌, ◌+◌, ◌<◌, ◌≤◌, ℕ, List, [], ◌∷◌, ◌++◌, ◌≢◌, OnOk, IfOk, OnErr, IfErr, IfSome, IsErrOf, false, is_some, length, take};
ghost use Rattle.std.specs.List.{list_any};
ghost use Rattle.std.specs.Vec.{vec_len};
ghost use Rattle.std.specs.Io.KnownBytes.{Keeps, Appends, Consumes, IsAtEnd};
ghost use Rattle.tinystr_lines.specs.Reply.{AppendsBeginning, is_line_feed, reply_line, output_of};

use crate::reply::push_line_reply;
use crate::split::{place_in_lanes, split_at_first};
use std::alloc::{AllocError, Global};
use std::io::{Read, Write};

/// Why `run` failed.
#[derive(Debug, PartialEq, Eq, Drop)]
pub enum RunError {
    /// An allocation failed.
    Memory,
    /// A read failed.
    Read,
    /// A write or the flush failed, or a write took nothing.
    Write,
}

impl From<AllocError> for RunError {
    ghost use Rattle.tinystr_lines.specs.declared.engine.RunError.TheVariants.{Memory};

    ghost from_gives = { λ _ e. e ≡ Memory };

    fn from(_error: AllocError) -> RunError {
        RunError::Memory
    }
}

// What an allocation failed for.
#[derive(Drop)]
enum Refused {
    /// What was read.
    Input,
    /// The reply to a line.
    Reply,
}

// How many bytes a read takes at most.
const PIECE: usize = 65536;

// Appends the reply to a line with which `ahead` begins, and a line feed.
#[tactic(auto, unfolding(crate::specs::Reply::reply_line))]
fn push_reply_and_line_feed(out: &mut Vec<u8>, line: &[u8], ahead: &[u8]) -> Result<(), AllocError>
    requires { line.now ≡ take (length line.now) ahead.now }
    ensures { OnOk result (out.new.items ≡ out.old.items ++ reply_line line.now) }
{
    push_line_reply(out, line, ahead)?;
    out.push(b'\n')?;
    Ok(())
}

// Appends the output of an input.
#[tactic(auto, using(crate::proofs::Lines::output_steps))]
fn push_output_of_input(out: &mut Vec<u8>, input: &[u8]) -> Result<(), AllocError>
    ensures { OnOk result (out.new.items ≡ out.old.items ++ output_of input.now) }
{
    let mut rest = input;
    while !rest.is_empty() {
        let (line, more) = split_at_first(rest, rest, b'\n');
        push_reply_and_line_feed(out, line, rest)?;
        rest = more;
    }
    Ok(())
}

// Splits after the last line feed, if there is one. Thirty-two bytes without one are passed in one step.
fn split_after_last_line(piece: &[u8]) -> Option<(&[u8], &[u8])>
    ensures some { IfSome result (λ parts. (head : List ℕ)
        × (parts.0.now ≡ head ++ 10 ∷ [])
        × (piece.now ≡ parts.0.now ++ parts.1.now)) }
    ensures rest { IfSome result (λ parts. list_any is_line_feed parts.1.now ≡ false) }
    ensures found { is_some result ≡ list_any is_line_feed piece.now }
{
    let mut end = piece.len();
    while let Some(lanes) = piece[..end].last_chunk::<32>() {
        if place_in_lanes(lanes, b'\n') < 32 {
            break;
        }
        end -= 32;
    }
    while end > 0 {
        if piece[end - 1] == b'\n' {
            return Some((&piece[..end], &piece[end..]));
        }
        end -= 1;
    }
    None
}

// Appends bytes that were read to what was begun.
fn keep(begun: &mut Vec<u8>, bytes: &[u8]) -> Result<(), Refused>
    ensures items { OnOk result (begun.new.items ≡ begun.old.items ++ bytes.now) }
    ensures len { OnOk result (vec_len begun.new ≡ vec_len begun.old + length bytes.now) }
    ensures fault { IfErr result (λ e. e ≡ Refused.Input) }
    ensures unchanged { OnErr result (begun.new.items ≡ begun.old.items) }
    ensures same_len { OnErr result (vec_len begun.new ≡ vec_len begun.old) }
{
    begun.extend_from_slice(bytes).or(Err(Refused::Input))
}

// Appends the output of what was begun and goes on with a piece, up to the piece's last line feed. What follows that is
// begun then.
fn push_output_of_piece(out: &mut Vec<u8>, begun: &mut Vec<u8>, piece: &[u8]) -> Result<(), Refused>
    ensures answered { OnOk result ((more : List ℕ)
        → out.old.items ++ output_of ((begun.old.items ++ piece.now) ++ more)
        ≡ out.new.items ++ output_of (begun.new.items ++ more)) }
    // What is begun grows, or else the output.
    ensures kept { OnOk result (vec_len out.old ≤ vec_len out.new) }
    ensures grown { OnOk result (vec_len out.new ≡ vec_len out.old
        → vec_len begun.new ≡ vec_len begun.old + length piece.now) }
    // No more than a line is begun.
    ensures line { OnOk result (list_any is_line_feed begun.old.items ≡ false
        → list_any is_line_feed begun.new.items ≡ false) }
    // If an allocation for input fails, `begun` isn't longer. If one for a reply fails, it is longer, by the lines.
    ensures input { IfErr result (λ e. e ≡ Refused.Input → vec_len begun.new ≤ vec_len begun.old) }
    ensures reply { IfErr result (λ e. e ≡ Refused.Reply → vec_len begun.old < vec_len begun.new) }
{
    let Some((lines, rest)) = split_after_last_line(piece) else {
        return keep(begun, piece);
    };
    keep(begun, lines)?;
    push_output_of_input(out, begun).or(Err(Refused::Reply))?;
    begun.clear();
    keep(begun, rest)?;
    Ok(())
}

// Why a run fails after a failed allocation for a reply. The remaining input is read first, so that a read error takes precedence
// over the allocation failure. It is kept, since an allocation for it fails at some length, so that the loop ends for any reader.
#[cold]
fn read_on<R: Read>(reader: &mut R, begun: Vec<u8>, piece: &mut [u8]) -> RunError
    ensures { result ≢ RunError.Write }
{
    let mut kept = begun;
    loop {
        match reader.read(piece) {
            Ok(0) => return RunError::Memory,
            Ok(count) => {
                if kept.extend_from_slice(&piece[..count]).is_err() {
                    return RunError::Memory;
                }
            }
            Err(_) => return RunError::Read,
        }
    }
}

// Why a run fails after a failed allocation: for input immediately, and for a reply as `read_on` says.
#[cold]
fn failure<R: Read>(refused: Refused, reader: &mut R, begun: Vec<u8>, piece: &mut [u8]) -> RunError
    ensures input { refused ≡ Refused.Input → result ≡ RunError.Memory }
    ensures fault { result ≢ RunError.Write }
{
    match refused {
        Refused::Input => RunError::Memory,
        Refused::Reply => read_on(reader, begun, piece),
    }
}

// Reads all that the reader has, and returns its output.
fn read_output<R: Read>(alloc: Global, reader: &mut R) -> Result<Vec<u8>, RunError>
    ensures output { IfOk result (λ out. (input : List ℕ)
        × Consumes (R.remaining reader.old) (R.remaining reader.new) input
        × (out.items ≡ output_of input)) }
    ensures end { OnOk result (IsAtEnd (R.remaining reader.new)) }
    ensures err { IfErr result (λ e. e ≢ RunError.Write) }
{
    let mut out = Vec::new(alloc);
    let mut begun = Vec::new(alloc);
    let mut piece = [0u8; PIECE];
    loop {
        match reader.read(&mut piece) {
            Ok(0) => {
                push_output_of_input(&mut out, &begun)?;
                return Ok(out);
            }
            Ok(count) => match push_output_of_piece(&mut out, &mut begun, &piece[..count]) {
                Ok(()) => continue,
                Err(refused) => {
                    drop(out);
                    return Err(failure(refused, reader, begun, &mut piece));
                }
            },
            Err(_) => return Err(RunError::Read),
        }
    }
}

// Writes all the bytes and flushes.
fn write_output<W: Write>(writer: &mut W, output: &[u8]) -> Result<(), RunError>
    ensures ok { OnOk result (Appends (W.contents writer.old) (W.contents writer.new) output.now) }
    ensures err { OnErr result
        (AppendsBeginning (W.contents writer.old) (W.contents writer.new) output.now) }
    ensures fault { IfErr result (λ e. e ≡ RunError.Write) }
{
    let mut rest = output;
    while !rest.is_empty() {
        match writer.write(rest) {
            Ok(0) | Err(_) => return Err(RunError::Write),
            Ok(count) => rest = &rest[count..],
        }
    }
    writer.flush().or(Err(RunError::Write))
}

/// Reads the reader to its end, then writes the replies to the lines read, each followed by a line feed, and flushes.
/// It allocates from `alloc` to hold all replies and, of the input, at most a line and the bytes of one read. After an
/// allocation for a reply has failed, it holds the remaining input. An interrupted read or write counts as failed,
/// and isn't tried again.
pub fn run<R: Read, W: Write>(alloc: Global, r: &mut R, w: &mut W) -> Result<(), RunError>
    // It reads to the end before it writes.
    ensures ended { OnOk result (IsAtEnd (R.remaining r.new)) }
    ensures ended_before_writing { IsErrOf result RunError.Write → IsAtEnd (R.remaining r.new) }

    ensures written { OnOk result (IfSome (R.remaining r.old)
        (λ input. Appends (W.contents w.old) (W.contents w.new) (output_of input))) }
    ensures begun { IsErrOf result RunError.Write → IfSome (R.remaining r.old)
        (λ input. AppendsBeginning (W.contents w.old) (W.contents w.new) (output_of input)) }
    ensures unread { IsErrOf result RunError.Read → Keeps (W.contents w.old) (W.contents w.new) }
    ensures no_memory { IsErrOf result RunError.Memory →
        Keeps (W.contents w.old) (W.contents w.new) }
{
    let out = read_output(alloc, r)?;
    write_output(w, &out)
}
