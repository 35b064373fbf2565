//! The text of an image's head.

ghost use Rattle.std.specs.Prelude.{◌≡◌, ◌++◌, Some};
ghost use Rattle.board_model.specs.Texts.{image_text};

use crate::durable::ImageHead;
use crate::values::Value;
use std::fmt;

/// What an image holds beside its memory, as programs tell it: `image hart H address A opaque V`. Its serial stands in the
/// text of the state that has the image.
#[derive(Drop)]
pub struct ImageText(pub ImageHead);

impl fmt::Display for ImageText {
    ghost output = { λ i. Some (image_text i.0) };

    fn fmt<W: fmt::Write>(&self, f: &mut fmt::Formatter<W>) -> fmt::Result {
        let hart = self.0.hart.number();
        let address = Value(self.0.address.value());
        let opaque = Value(self.0.opaque);
        write!(f, "image hart {hart} address 0x{address} opaque 0x{opaque}")
    }
}
