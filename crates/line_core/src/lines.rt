//! The next line of a reader.
ghost use Rattle.std.specs.Prelude.{◌≡◌, []};
ghost use Rattle.std.specs.Str.Lines.{strip_carriage_return};
ghost use Rattle.line_core.specs.Lines.{IsJudged, IsTaken, ReadsUpTo, TakesByte, TakesMore};
ghost use Rattle.line_core.specs.Lines.{KeepsByte};

use std::io::Read;

/// The most bytes of a line, before its line feed.
pub const LINE_LIMIT: usize = 1_048_576;

/// What was taken of a stream.
#[derive(Clone, Copy, Debug)]
pub enum Taken {
    /// A line, which the buffer holds.
    Line,
    /// A line of more bytes than a line may have.
    TooLong,
    /// Nothing: the stream has ended.
    End,
    /// A part of a line: a read failed, or there was no memory for what was read.
    Fault,
}

/// Where reading stops.
#[derive(Clone, Copy)]
enum Stop {
    /// At a line feed, which is taken.
    Feed,
    /// At the end of the stream.
    End,
    /// At a read that failed, or without memory.
    Fault,
}

/// What a read gives.
#[derive(Clone, Copy)]
enum Next {
    Byte(u8),
    End,
    Fault,
}

/// Takes the next line of a reader into a buffer, without its line feed and a carriage return that
/// stands in front of that. What the buffer held is gone. A line ends at the first line feed, or at
/// the end of the stream, if a byte stands there. Of a line that is too long all is taken, and the
/// buffer has its beginning.
pub fn take_line<R: Read>(reader: &mut R, line: &mut Vec<u8>) -> Taken
    ensures { IsTaken result (R.remaining reader.old) (R.remaining reader.new) line.new.items }
{
    line.clear();
    match read_line(reader, line) {
        Stop::Feed => judge(line, true),
        Stop::End => judge(line, false),
        Stop::Fault => Taken::Fault,
    }
}

/// Reads up to the next line feed, or to the end. Of what stands before it one byte more than a line
/// may have is put into the buffer, which is empty.
fn read_line<R: Read>(reader: &mut R, line: &mut Vec<u8>) -> Stop
    requires { line.old.items ≡ [] }
    ensures { ReadsUpTo result (R.remaining reader.old) (R.remaining reader.new) line.new.items }
{
    for _byte in 0..u64::MAX {
        if let Some(stop) = take_more(reader, line) {
            return stop;
        }
    }
    Stop::Fault
}

/// Takes a byte more of a line: where reading stops, if it does.
fn take_more<R: Read>(reader: &mut R, line: &mut Vec<u8>) -> Option<Stop>
    ensures { TakesMore result (R.remaining reader.old) (R.remaining reader.new)
        line.old.items line.new.items }
{
    match take_byte(reader) {
        Next::Byte(byte) => keep(line, byte),
        Next::End => Some(Stop::End),
        Next::Fault => Some(Stop::Fault),
    }
}

/// Puts a byte behind those of a line, unless that is a line feed. One more than a line may have are
/// held at most.
fn keep(line: &mut Vec<u8>, byte: u8) -> Option<Stop>
    ensures { KeepsByte result byte line.old.items line.new.items }
{
    if byte == b'\n' {
        return Some(Stop::Feed);
    }
    if line.len() > LINE_LIMIT {
        return None;
    }
    match line.push(byte) {
        Ok(()) => None,
        Err(_) => Some(Stop::Fault),
    }
}

/// One read of a byte.
fn take_byte<R: Read>(reader: &mut R) -> Next
    ensures { TakesByte result (R.remaining reader.old) (R.remaining reader.new) }
{
    let mut byte = [0u8];
    match reader.read(&mut byte) {
        Ok(0) => Next::End,
        Ok(_) => Next::Byte(byte[0]),
        Err(_) => Next::Fault,
    }
}

/// What a buffer holds that was read up to a line feed, or to the end; it keeps the line.
fn judge(line: &mut Vec<u8>, ended: bool) -> Taken
    ensures { IsJudged result line.old.items ended line.new.items }
{
    if line.len() > LINE_LIMIT {
        return Taken::TooLong;
    }
    if ended {
        drop_return(line);
        return Taken::Line;
    }
    if line.is_empty() {
        Taken::End
    } else {
        Taken::Line
    }
}

/// Drops a carriage return at the end.
fn drop_return(line: &mut Vec<u8>)
    ensures { line.new.items ≡ strip_carriage_return line.old.items }
{
    if line.last() == Some(&b'\r') {
        line.pop();
    }
}
