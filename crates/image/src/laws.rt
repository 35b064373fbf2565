//! What the reading of an area says, in plain words.
ghost use Rattle.std.specs.Prelude.{◌≡◌, ◌≢◌, ◌↔◌, ◌<◌, ◌+◌, ◌*◌, ◌^◌, [], ℕ, List, slice_index, take, drop};
ghost use Rattle.board_model.specs.Shapes.{Size, IsSize};
ghost use Rattle.disk.specs.Facts.{Content};
ghost use Rattle.layout.specs.Records.{AreCounts};
ghost use Rattle.image.specs.Areas.{IsArea, IsWholeArea, place_in_area};
ghost use Rattle.image.specs.Images.{memory_of, page_behind};

/// An area reads as a memory, and not as none, exactly where each page of the board stands in one place in
/// use and each place in use has a header of that serial; and then each page of the memory is the 8 sectors
/// after its header.
pub fn reads_where_whole()
    ensures whole { (size : Size) (serial : ℕ) (counts : List ℕ) (area : Content) → IsSize size → serial < 2 ^ 64
        → AreCounts size counts → IsArea size area
        → (memory_of size serial counts area ≢ []) ↔ IsWholeArea size serial counts area }
    ensures pages { (size : Size) (serial : ℕ) (counts : List ℕ) (area : Content) → IsSize size → serial < 2 ^ 64
        → AreCounts size counts → IsArea size area
        → (whole : IsWholeArea size serial counts area) (lane place : ℕ) → place < slice_index counts lane
        → take 4096 (drop (4096 * whole.page lane place) (memory_of size serial counts area))
        ≡ page_behind area (place_in_area size lane place) }
{}
