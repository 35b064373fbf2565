//! What is saved.
ghost use Rattle.std.specs.Prelude.{◌≡◌, length};
ghost use Rattle.board_model.specs.Shapes.{ram_bytes_of};

use board_model::Shape;
use ram::Ram;

/// What an image is made from: the memory of a board of that shape, and the serial that each of its pages is
/// saved under.
#[derive(Drop)]
pub struct Snapshot<'a> {
    pub shape: &'a Shape,
    pub ram: &'a Ram,
    pub serial: u64,
    pub ghost fits: { length ram.now ≡ ram_bytes_of shape.now },
}
