//! Scripts from a reader, and what they print to a writer.

ghost use Rattle.std.specs.Prelude.{◌≡◌, ◌≤◌, IfOk, IfErr, OnOk, IfSome, Err, length};
ghost use Rattle.std.specs.Io.KnownBytes.{Appends};
ghost use Rattle.script_text.specs.Streams.{fits, IsUnread, AppendsPart, EndsLine};

use crate::fault::{LineFault, ScriptFault};
use std::alloc::Global;
use std::io::{Read, Write};

/// The most bytes that a script may have.
const MAX_SCRIPT_BYTES: usize = 1_048_576;

/// The bytes that are read at a time.
const CHUNK: usize = 4_096;

/// Reads all that a reader has left, up to 1,048,576 bytes.
///
/// S1 where the reader fails, also by an interrupted read; S2 where it has more; S5 at line 0 where memory runs out.
/// What was read is lost then.
pub fn read_script<R: Read>(alloc: Global, reader: &mut R) -> Result<Vec<u8>, ScriptFault>
    ensures all { IfOk result (λ script. IfSome (R.remaining reader.old) (λ bytes. script.items ≡ bytes)) }
    ensures fits { IfOk result (λ script. fits script.items) }
    ensures fault { IfErr result (IsUnread (R.remaining reader.old)) }
{
    let mut script = Vec::new(alloc);
    let mut chunk = [0u8; CHUNK];
    while script.len() <= MAX_SCRIPT_BYTES {
        match reader.read(&mut chunk) {
            Err(_) => return Err(ScriptFault::Read),
            Ok(0) => return Ok(script),
            Ok(n) => {
                if script.extend_from_slice(&chunk[..n]).is_err() {
                    return Err(ScriptFault::OutOfMemory(0));
                }
            }
        }
    }
    Err(ScriptFault::TooMuch)
}

/// Writes a whole text, or answers S4: a write failed, or took no byte. Then a beginning of the text was written.
pub fn write_text<W: Write>(writer: &mut W, text: &str) -> Result<(), ScriptFault>
    ensures whole { OnOk result (Appends (W.contents writer.old) (W.contents writer.new) text.now) }
    ensures part { AppendsPart (W.contents writer.old) (W.contents writer.new) text.now }
    ensures fault { IfErr result (λ fault. fault ≡ ScriptFault.Write) }
{
    let bytes = text.as_bytes();
    let mut written = 0;
    while written < bytes.len() {
        match writer.write(&bytes[written..]) {
            Ok(0) => return Err(ScriptFault::Write),
            Ok(n) => written += n,
            Err(_) => return Err(ScriptFault::Write),
        }
    }
    Ok(())
}

/// Writes what a line prints where the script goes on behind it, and else tells how the script ends there, by the line's number.
///
/// S3 and S5 where the line does not go on: nothing was written. S4: a write failed, or took no byte.
pub fn end_line<W: Write>(
    writer: &mut W,
    number: usize,
    text: &str,
    ended: Result<(), LineFault>,
) -> Result<(), ScriptFault>
    ensures { EndsLine ended number text.now (W.contents writer.old) (W.contents writer.new) result }
{
    match ended {
        Ok(()) => write_text(writer, text),
        Err(LineFault::BadLine) => Err(ScriptFault::BadLine(number)),
        Err(LineFault::OutOfMemory) => Err(ScriptFault::OutOfMemory(number)),
    }
}
