//! What an examiner says of a disk, as a line of text.

ghost use Rattle.std.specs.Prelude.{Some};
ghost use Rattle.report_lines.specs.InspectionTexts.{standing_text, image_text, inspection_text};

use std::fmt;
use store::{ImageSeen, Inspection};

/// Whether a record is in its form.
#[derive(Clone, Copy, Drop)]
struct StandingText(bool);

impl fmt::Display for StandingText {
    ghost output = { λ t. Some (standing_text t.0) };

    fn fmt<W: fmt::Write>(&self, f: &mut fmt::Formatter<W>) -> fmt::Result {
        if self.0 {
            f.write_str("ok")
        } else {
            f.write_str("bad")
        }
    }
}

/// What an examiner says of the image.
#[derive(Clone, Copy, Drop)]
struct ImageText(ImageSeen);

impl fmt::Display for ImageText {
    ghost output = { λ t. Some (image_text t.0) };

    fn fmt<W: fmt::Write>(&self, f: &mut fmt::Formatter<W>) -> fmt::Result {
        match self.0 {
            ImageSeen::Absent => f.write_str("none"),
            ImageSeen::Whole => f.write_str("whole"),
            ImageSeen::Bad => f.write_str("bad"),
        }
    }
}

/// `gate G live Y other Z image I`: G 0 or 1, Y and Z `ok` or `bad`, and I `none`, `whole` or `bad`
/// (docs/SCRIPT.md, "The report").
#[derive(Clone, Copy, Drop)]
pub struct InspectionText(pub Inspection);

impl fmt::Display for InspectionText {
    ghost output = { λ t. Some (inspection_text t.0) };

    fn fmt<W: fmt::Write>(&self, f: &mut fmt::Formatter<W>) -> fmt::Result {
        let gate = self.0.gate;
        let live = StandingText(self.0.live);
        let other = StandingText(self.0.other);
        let image = ImageText(self.0.image);
        write!(f, "gate {gate} live {live} other {other} image {image}")
    }
}
