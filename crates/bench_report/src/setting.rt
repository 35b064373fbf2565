//! What the lines of a script are run with.

ghost use Rattle.std.specs.Prelude.{◌≡◌, ◌∷◌, []};

use board_model::Shape;
use crew::Sequential;
use std::alloc::{AllocError, Global};
use std::thread::Threads;

/// What the boards of a bench are made with.
pub struct Setting<'a, C> {
    /// Where their memory comes from.
    pub alloc: Global,
    /// Who writes the lanes of an image.
    pub crew: &'a C,
    /// The shape of each.
    pub shape: &'a Shape,
}

impl<'a, C> Clone for Setting<'a, C> {
    fn clone(&self) -> Result<Setting<'a, C>, AllocError> {
        Ok(*self)
    }
}

impl<'a, C> Copy for Setting<'a, C> {}

/// Who writes the lanes of an image one after another, lane 0 first.
pub fn lane_by_lane<R: Threads + Sync>() -> Sequential<R>
    ensures order { result.order ≡ 0 ∷ 1 ∷ 2 ∷ 3 ∷ [] }
{
    let crew = Sequential::new([0, 1, 2, 3]);
    crew.unwrap()
}
