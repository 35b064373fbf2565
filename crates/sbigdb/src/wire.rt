//! What is sent for a packet.

ghost use Rattle.std.specs.Prelude.{OnOk};
ghost use Rattle.std.specs.Io.KnownBytes.{Appends};
ghost use Rattle.sbigdb.specs.Answers.{again_text, front_text};
ghost use Rattle.sbigdb.specs.Talks.{sent_in};

use crate::talk::Talk;
use board_model::Refusal;
use crew::Crew;
use std::io::Write;

/// Sends bytes, and what the writer held back of them.
fn send<W: Write>(out: &mut W, bytes: &[u8]) -> Result<(), Refusal>
    ensures { OnOk result (Appends (W.contents out.old) (W.contents out.new) bytes.now) }
{
    out.write_all(bytes).map_err(|_| Refusal::Output)?;
    out.flush().map_err(|_| Refusal::Output)
}

/// Acknowledges a packet on a writer, where that is wanted.
///
/// Refused `Output` where the debugger does not read.
pub fn acknowledge<W: Write>(acknowledges: bool, out: &mut W) -> Result<(), Refusal>
    ensures { OnOk result (Appends (W.contents out.old) (W.contents out.new) (front_text acknowledges)) }
{
    if acknowledges {
        send(out, b"+")
    } else {
        send(out, b"")
    }
}

/// Sends the answer that the talk keeps.
///
/// Refused `Output` where the debugger does not read.
pub fn send_answer<C: Crew, W: Write>(talk: &Talk<'_, C>, out: &mut W) -> Result<(), Refusal>
    ensures { OnOk result (Appends (W.contents out.old) (W.contents out.new) (sent_in talk.now)) }
{
    send(out, &talk.sent)
}

/// Sends what was sent last in answer to a packet once more, where packets are acknowledged.
///
/// Refused `Output` where the debugger does not read.
pub fn reply_again<C: Crew, W: Write>(talk: &Talk<'_, C>, out: &mut W) -> Result<(), Refusal>
    ensures { OnOk result (Appends (W.contents out.old) (W.contents out.new) (again_text talk.now)) }
{
    if talk.acknowledges() {
        send_answer(talk, out)
    } else {
        send(out, b"")
    }
}
