//! Where everything stands on a disk. All numbers are sectors, unless said otherwise.
ghost use Rattle.std.specs.Prelude.{◌≡◌, ◌+◌, ◌*◌, ◌<◌, ◌≤◌};
ghost use Rattle.board_model.specs.Shapes.{Size, places_of, area_sectors_of, sectors_of};
ghost use Rattle.layout.specs.Sizes.{lane_sectors, area_start, lane_start, place_start};

use crate::side::Side;
use board_model::Shape;

/// The first sector of an area.
pub fn area_start(shape: &Shape, area: Side) -> usize
    ensures value { result ≡ area_start shape.now area }
    ensures range { (8 ≤ result) × (result ≤ 8 + 9 * 4 * 256) }
    ensures within { result + area_sectors_of shape.now ≤ sectors_of shape.now }
{
    8 + area.index() * shape.area_sectors()
}

/// The first sector of a lane, 0 to 3, of an area. The board has that lane.
pub fn lane_start(shape: &Shape, area: Side, lane: usize) -> usize
    requires few { lane < 4 }
    requires there { lane < shape.now.lanes }
    ensures value { result ≡ lane_start shape.now area lane }
    ensures within { result + lane_sectors shape.now ≤ sectors_of shape.now }
{
    area_start(shape, area) + lane * (9 * shape.places())
}

/// Where the header of a place stands, from its lane's first sector on; the 8 sectors of the page stand
/// after it, and a lane has all nine of each place of its board.
pub fn place_start(place: usize) -> usize
    requires { place < 256 }
    ensures value { result ≡ place_start place }
    ensures within { (size : Size) → place < places_of size → result + 9 ≤ lane_sectors size }
{
    9 * place
}
