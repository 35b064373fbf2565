//! Places in use, counted through the lanes.
ghost use Rattle.std.specs.Prelude.{◌≡◌, ◌<◌, ◌≤◌, ◌+◌, ◌^◌, slice_index};
ghost use Rattle.board_model.specs.Shapes.{area_sectors_of};
ghost use Rattle.layout.specs.Records.{AreCounts};
ghost use Rattle.image.specs.Images.{places_in};

use board_model::Shape;
use layout::place_start;

/// Where in its area the place in use of that number stands, where they are counted through the lanes.
pub(crate) fn place_of(shape: &Shape, counts: &[u32; 4], number: usize) -> usize
    requires counts { AreCounts shape.now counts.now }
    requires there { number < shape.now.pages }
    ensures value { result ≡ slice_index (places_in shape.now 0 counts.now) number }
    ensures within { result + 9 ≤ area_sectors_of shape.now }
    ensures small { result < 2 ^ 16 }
{
    let mut left = number;
    for lane in 0..counts.len() {
        let count = counts[lane] as usize;
        if left < count {
            return lane * (9 * shape.places()) + place_start(left);
        }
        left -= count;
    }
    0
}
