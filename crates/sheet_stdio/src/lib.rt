//! The bench sheet, from a reader to a writer.
//!
//! Here a record is read, memory is lent and the text is written; what the text says is decided by
//! `sheet`. A read or a write that fails is an error, which names the stream that failed.
#![tactic(auto)]

ghost use Rattle.std.specs.Prelude.{◌≡◌, ◌≢◌, ◌<◌, ◌≤◌, IfErr, IfOk, IfSome, OnErr, OnOk, length};
ghost use Rattle.std.specs.Prelude.{take};
ghost use Rattle.std.specs.IoError.{error_kind};
ghost use Rattle.std.specs.Io.KnownBytes.{Appends, Consumes, IsAtEnd, Keeps};
ghost use Rattle.record_format.specs.Reading.{image_in};
ghost use Rattle.sheet.specs.declared.SheetAnswer.{SheetAnswer};
ghost use Rattle.sheet.specs.Sheet.{sheet_due, sheet_text, SheetCall};
ghost use Rattle.sheet_stdio.specs.StdioError.{OnInput};

use refusal::limits::MOST_BYTES;
use sheet::{MOST_TEXT, SheetAnswer, sheet};
use std::error::Error;
use std::io::{ErrorKind, Read, Write};
use std::{fmt, io};

/// Numbers of the readings buffer and of the output buffer that a program lends to its sheet.
pub const BUFFER: usize = 8192;

/// Numbers of the work memory that a program lends to its sheet.
pub const WORK: usize = 16384;

/// Why a program did not print its sheet whole: the stream that failed, and the system's reason.
#[derive(Clone, Copy)]
pub enum StdioError {
    /// Standard input could not be read: nothing was printed.
    Input(io::Error),
    /// Standard output could not be written: what was printed may be cut short.
    Output(io::Error),
}

impl fmt::Display for StdioError {
    fn fmt<W: fmt::Write>(&self, f: &mut fmt::Formatter<W>) -> fmt::Result {
        match self {
            StdioError::Input(error) => write!(f, "standard input could not be read: {error}"),
            StdioError::Output(error) => write!(f, "standard output could not be written: {error}"),
        }
    }
}

// The same text: by this form a program prints the error of its `main`.
impl fmt::Debug for StdioError {
    fn fmt<W: fmt::Write>(&self, f: &mut fmt::Formatter<W>) -> fmt::Result {
        fmt::Display::fmt(self, f)
    }
}

impl Error for StdioError {}

/// Writes the sheet of a record, or the line of its refusal, to `out`.
///
/// `bytes` is the record. The other slices are lent memory, which is left as `sheet` leaves it,
/// also after an error. A `text` of `MOST_TEXT` bytes holds any sheet; in a shorter one it is cut.
/// `Ok` has the answer of `sheet`, maybe a refusal, and all that `text` holds of it is written.
/// `Err` is the writer's error: some of that may be missing.
pub fn print_sheet<W: Write>(
    out: &mut W,
    bytes: &[u8],
    readings: &mut [u16],
    output: &mut [u16],
    work: &mut [u32],
    text: &mut [u8],
) -> io::Result<SheetAnswer>
    ensures sheet_call { IfOk result (λ answer.
        SheetCall bytes.now readings.old output.old work.old text.old answer
        readings.new output.new work.new text.new) }
    ensures written { IfOk result (λ answer.
        Appends (W.contents out.old) (W.contents out.new) (take answer.length text.new)) }
    ensures memory_after_err { OnErr result ((answer : SheetAnswer)
        × SheetCall bytes.now readings.old output.old work.old text.old answer
        readings.new output.new work.new text.new) }
{
    let answer = sheet(bytes, readings, output, work, text);
    let length = answer.length.min(text.len());
    out.write_all(&text[..length])?;
    Ok(answer)
}

// Fills memory from a reader, until it is full or the input ends; how many bytes were read. A read
// that a signal interrupts is made again, up to 2^64 times. The memory is fixed, so this is not
// `read_to_end`.
fn read_full<R: Read>(reader: &mut R, bytes: &mut [u8]) -> io::Result<usize>
    ensures count { IfOk result (λ n. n ≤ length bytes.new) }
    ensures read { IfOk result (λ n.
        Consumes (R.remaining reader.old) (R.remaining reader.new) (take n bytes.new)) }
    ensures end { IfOk result (λ n. n < length bytes.new → IsAtEnd (R.remaining reader.new)) }
    ensures retried { IfErr result (λ error. error_kind error ≢ ErrorKind.Interrupted) }
{
    let mut count = 0;
    for _ in 0..u64::MAX {
        if bytes.len() <= count {
            return Ok(count);
        }
        match reader.read(&mut bytes[count..]) {
            Ok(0) => return Ok(count),
            Ok(n) => count += n,
            Err(error) => {
                if error.kind() != ErrorKind::Interrupted {
                    return Err(error);
                }
            }
        }
    }
    Err(ErrorKind::TimedOut.into())
}

/// Reads a record to its end and writes its sheet, or the line of its refusal.
///
/// At most one byte more is read than a record may have: by that length alone it is refused
/// (SPECIFICATION, "Sheet"). `Ok` says that all of the text is written; the caller flushes a writer
/// that buffers. After a failed read nothing is written, and after a failed write some of the text
/// may be.
pub fn print_record<R: Read, W: Write>(reader: &mut R, out: &mut W) -> Result<(), StdioError>
    ensures written { OnOk result (IfSome (R.remaining reader.old) (λ bytes.
        Appends (W.contents out.old) (W.contents out.new)
        (sheet_text (sheet_due bytes BUFFER BUFFER WORK) (image_in bytes)))) }
    ensures nothing_after_failed_read { IfErr result (λ error.
        OnInput error (Keeps (W.contents out.old) (W.contents out.new))) }
{
    let mut record = [0u8; MOST_BYTES + 1];
    let mut readings = [0u16; BUFFER];
    let mut output = [0u16; BUFFER];
    let mut work = [0u32; WORK];
    let mut text = [0u8; MOST_TEXT];
    let length = read_full(reader, &mut record).map_err(StdioError::Input)?;
    print_sheet(
        out,
        &record[..length],
        &mut readings,
        &mut output,
        &mut work,
        &mut text,
    )
    .map_err(StdioError::Output)?;
    Ok(())
}
