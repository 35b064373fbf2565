//! What a program has to say, written to the end.

ghost use Rattle.std.specs.Prelude.{◌≡◌, [], OnOk, IfErr, IfSome};
ghost use Rattle.std.specs.Io.Buffered.{writer_buffer, writer_contents};
ghost use Rattle.std.specs.Io.KnownBytes.{Appends};

use board_model::Refusal;
use std::fmt::Display;
use std::io::{BufWriter, Write};

/// Writes the text of a value to the end.
///
/// Refused `Output` where it could not be written.
pub fn write_to_end<T: Display, W: Write + Drop>(
    value: &T,
    out: &mut BufWriter<W>,
) -> Result<(), Refusal>
    ensures written { OnOk result (IfSome (T.output value.now) (Appends (writer_contents W.contents out.old)
        (writer_contents W.contents out.new))) }
    // Nothing of it is held back.
    ensures flushed { OnOk result (writer_buffer out.new ≡ []) }
    ensures refused { IfErr result (λ e. e ≡ Refusal.Output) }
{
    write!(out, "{value}").map_err(|_| Refusal::Output)?;
    out.flush().map_err(|_| Refusal::Output)
}
