//! Whole reads and writes, in as many calls as they take.
ghost use Rattle.std.specs.Prelude.{◌≡◌, ℕ, ◌+◌, ◌<◌, ◌≤◌, take, length, vec_len, IfOk, IfSome, OnOk, OnErr};
ghost use Rattle.std.specs.Io.{StartsWith, appended_bytes};
ghost use Rattle.std.specs.Io.KnownBytes.{Appends, Consumes, IsAtEnd, Keeps};

use class_model::ByteList;
use std::alloc::Global;
use std::io;
use std::io::{ErrorKind, Read, Write};

/// How many bytes are read at a time past the expected length.
const PIECE: usize = 65536;

/// Writes all bytes. After an error a prefix of them was written.
pub fn write_all<W: Write>(output: &mut W, bytes: &[u8]) -> io::Result<()>
    ensures all { OnOk result (Appends (W.contents output.old) (W.contents output.new) bytes.now) }
    ensures prefix { (count : ℕ)
        × Appends (W.contents output.old) (W.contents output.new) (take count bytes.now) }
{
    let mut written = 0;
    while written < bytes.len() {
        written += write_some(output, &bytes[written..])?;
    }
    Ok(())
}

/// One write, tried again where it is interrupted. To take nothing is an error.
fn write_some<W: Write>(output: &mut W, bytes: &[u8]) -> io::Result<usize>
    ensures some { IfOk result (λ count. 0 < count) }
    ensures within { IfOk result (λ count. count ≤ length bytes.now) }
    ensures ok { IfOk result
        (λ count. Appends (W.contents output.old) (W.contents output.new) (take count bytes.now)) }
    ensures err { OnErr result
        ((count : ℕ)
        × Appends (W.contents output.old) (W.contents output.new) (take count bytes.now)) }
{
    for _ in 0..u64::MAX {
        match output.write(bytes) {
            Ok(0) => return Err(io::Error::from(ErrorKind::WriteZero)),
            Err(error) if error.kind() == ErrorKind::Interrupted => {}
            result => return result,
        }
    }
    Err(io::Error::from(ErrorKind::TimedOut))
}

/// Reads the first `most` bytes, or all of them where they are fewer. It takes memory for one byte
/// more than the expected length at first, and for more only where more bytes come.
pub fn read_first<I: Read>(
    input: &mut I,
    alloc: Global,
    expected: u64,
    most: u64,
) -> io::Result<ByteList>
    ensures { IfSome (I.remaining input.old) (λ all. IfOk result (λ bytes. bytes ≡ take most all)) }
{
    let most = usize::try_from(most).unwrap_or(usize::MAX);
    let expected = usize::try_from(expected).unwrap_or(usize::MAX);
    let mut wanted = expected.saturating_add(1).min(most);
    let mut bytes = Vec::with_capacity(alloc, wanted)?;
    while wanted > 0 {
        let count = read_more(input, &mut bytes, wanted)?;
        if count < wanted {
            break;
        }
        wanted = PIECE.min(most - bytes.len());
    }
    Ok(ByteList::from_vec(bytes))
}

/// Appends at most `wanted` bytes, fewer only where the input has ended, and says how many.
fn read_more<I: Read>(input: &mut I, bytes: &mut Vec<u8>, wanted: usize) -> io::Result<usize>
    ensures count { IfOk result
        (λ count. (count ≤ wanted) × (vec_len bytes.new ≡ vec_len bytes.old + count)) }
    ensures kept { OnOk result (StartsWith bytes.new.items bytes.old.items) }
    ensures taken { OnOk result
        (Consumes (I.remaining input.old) (I.remaining input.new)
        (appended_bytes bytes.old.items bytes.new.items)) }
    ensures ended { IfOk result (λ count. count < wanted → IsAtEnd (I.remaining input.new)) }
{
    let start = bytes.len();
    bytes.resize(start.saturating_add(wanted), 0)?;
    let count = fill(input, &mut bytes[start..])?;
    bytes.truncate(start + count);
    Ok(count)
}

/// Reads until the buffer is full or the input has ended, and says how many bytes were read.
fn fill<I: Read>(input: &mut I, buffer: &mut [u8]) -> io::Result<usize>
    ensures within { IfOk result (λ count. count ≤ length buffer.new) }
    ensures taken { IfOk result (λ count.
        Consumes (I.remaining input.old) (I.remaining input.new) (take count buffer.new)) }
    ensures ended { IfOk result
        (λ count. count < length buffer.new → IsAtEnd (I.remaining input.new)) }
{
    let mut filled = 0;
    while filled < buffer.len() {
        let count = read_some(input, &mut buffer[filled..])?;
        if count == 0 {
            break;
        }
        filled += count;
    }
    Ok(filled)
}

/// One read, tried again where it is interrupted. It gives nothing only at the end of the input.
fn read_some<I: Read>(input: &mut I, buffer: &mut [u8]) -> io::Result<usize>
    ensures within { IfOk result (λ count. count ≤ length buffer.new) }
    ensures taken { IfOk result (λ count.
        Consumes (I.remaining input.old) (I.remaining input.new) (take count buffer.new)) }
    ensures ended { IfOk result
        (λ count. count ≡ 0 → 0 < length buffer.old → IsAtEnd (I.remaining input.new)) }
{
    for _ in 0..u64::MAX {
        match input.read(buffer) {
            Err(error) if error.kind() == ErrorKind::Interrupted => {}
            result => return result,
        }
    }
    Err(io::Error::from(ErrorKind::TimedOut))
}
