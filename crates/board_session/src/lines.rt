//! Lines of an input.

ghost use Rattle.std.specs.Prelude.{◌≡◌, [], ◌∷◌, ◌++◌, take};
ghost use Rattle.board_session.specs.Lines.{FindsByte, TakesLine};

use arrayvec::ArrayVec;
use std::io::{ErrorKind, Read};

/// What a read of one byte came to.
enum ByteRead {
    Byte(u8),
    /// The input has ended.
    End,
    /// The input failed.
    Failure,
}

/// How the bytes of a line ended.
#[derive(Clone, Copy, Drop)]
pub enum LineEnd {
    /// With their line feed.
    Feed,
    /// With the input.
    EndOfInput,
    /// With a failure of the input.
    Failure,
}

/// The next byte of an input, if there is one; a read that was interrupted is made again.
fn next_byte<I: Read>(input: &mut I) -> ByteRead
    ensures { FindsByte (I.remaining input.old) (I.remaining input.new) result }
{
    let mut byte = [0u8; 1];
    for _ in 0..u64::MAX {
        match input.read(&mut byte) {
            Ok(0) => return ByteRead::End,
            Ok(_) => return ByteRead::Byte(byte[0]),
            Err(e) if e.kind() == ErrorKind::Interrupted => {}
            Err(_) => return ByteRead::Failure,
        }
    }
    ByteRead::Failure
}

/// Keeps a byte of a line where there is room for it.
fn keep(line: &mut ArrayVec<u8, 257>, byte: u8)
    ensures { line.new.items ≡ take 257 (line.old.items ++ byte ∷ []) }
{
    if !line.is_full() {
        line.push(byte);
    }
}

/// Reads the next line up to its line feed, keeps its first 257 bytes, and says how it ended. The last line may lack its line feed.
/// Where no byte and no line feed is left, there is no line. Of a line in which the input fails, the bytes before the failure are
/// kept. No memory is taken. The call waits for each byte that is not there yet.
pub fn next_line<I: Read>(input: &mut I, line: &mut ArrayVec<u8, 257>) -> LineEnd
    ensures { TakesLine (I.remaining input.old) (I.remaining input.new) line.new.items result }
{
    line.clear();
    for _ in 0..u64::MAX {
        match next_byte(input) {
            ByteRead::Byte(byte) => {
                if byte == b'\n' {
                    return LineEnd::Feed;
                }
                keep(line, byte);
            }
            ByteRead::End => return LineEnd::EndOfInput,
            ByteRead::Failure => return LineEnd::Failure,
        }
    }
    LineEnd::Failure
}
