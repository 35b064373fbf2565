//! The lines that say what stands on a disk.

ghost use Rattle.std.specs.Prelude.{◌≡◌, ◌++◌, [], Some, OnOk, IfErr};
ghost use Rattle.std.specs.Io.Buffered.{writer_buffer, writer_contents};
ghost use Rattle.std.specs.Io.KnownBytes.{Appends};
ghost use Rattle.board_session.specs.ExaminerTexts.{block_text, standing_image_text, found_text, seen_text};

use board_model::{ImageHead, ImageText, Refusal, StateText};
use command_line::write_to_end;
use report_lines::{FoundState, InspectionText, Seen};
use std::fmt;
use std::io::{BufWriter, Write};

/// The line of an image, which has so many pages, or nothing where there is none.
#[derive(Drop)]
struct StandingImageText(Option<ImageHead>, u32);

impl fmt::Display for StandingImageText {
    ghost output = { λ i. Some (standing_image_text i.1 i.0) };

    fn fmt<W: fmt::Write>(&self, f: &mut fmt::Formatter<W>) -> fmt::Result {
        match self.0 {
            None => Ok(()),
            Some(head) => {
                let image = ImageText(head);
                let pages = self.1;
                writeln!(f, "{image} pages {pages}")
            }
        }
    }
}

/// The lines of what an open finds, or nothing where it finds none.
#[derive(Drop)]
struct FoundText(Option<FoundState>);

impl fmt::Display for FoundText {
    ghost output = { λ t. Some (found_text t.0) };

    fn fmt<W: fmt::Write>(&self, f: &mut fmt::Formatter<W>) -> fmt::Result {
        match self.0 {
            None => Ok(()),
            Some(found) => {
                let state = StateText(found.state);
                let image = StandingImageText(found.state.image, found.pages);
                write!(f, "found {state}\n{image}")
            }
        }
    }
}

/// The line of blocks of so many bytes, or nothing where sectors lie one after the other.
#[derive(Drop)]
struct BlockText(u32);

impl fmt::Display for BlockText {
    ghost output = { λ t. Some (block_text t.0) };

    fn fmt<W: fmt::Write>(&self, f: &mut fmt::Formatter<W>) -> fmt::Result {
        let bytes = self.0;
        if bytes == 512 {
            Ok(())
        } else {
            writeln!(f, "block {bytes}")
        }
    }
}

/// All lines of a disk, whose blocks have so many bytes.
#[derive(Drop)]
struct SeenText(Seen, u32);

impl fmt::Display for SeenText {
    ghost output = { λ t. Some (seen_text t.0 ++ block_text t.1) };

    fn fmt<W: fmt::Write>(&self, f: &mut fmt::Formatter<W>) -> fmt::Result {
        let inspection = InspectionText(self.0.inspection);
        let found = FoundText(self.0.found);
        let block = BlockText(self.1);
        write!(f, "inspect {inspection}\n{found}{block}")
    }
}

/// Writes the lines to the end: `inspect ..` as a report has it, `found ..` where an open finds a state, `image ..` where that
/// has an image, and `block ..` where the sectors lie in blocks of more bytes than 512.
///
/// Refused `Output` where they could not be written.
pub fn write_seen<W: Write + Drop>(
    seen: &Seen,
    block: u32,
    out: &mut BufWriter<W>,
) -> Result<(), Refusal>
    ensures written { OnOk result (Appends (writer_contents W.contents out.old)
        (writer_contents W.contents out.new) (seen_text seen.now ++ block_text block)) }
    // Nothing of it is held back.
    ensures flushed { OnOk result (writer_buffer out.new ≡ []) }
    ensures refused { IfErr result (λ e. e ≡ Refusal.Output) }
{
    let text = SeenText(*seen, block);
    write_to_end(&text, out)
}
