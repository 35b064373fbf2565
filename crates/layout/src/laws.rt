//! Each sector has one spelling, and is the spelling of one value: the contracts of functions that do
//! nothing.
ghost use Rattle.std.specs.Prelude.{◌≡◌, ℕ, List, replicate};
ghost use Rattle.board_model.specs.Shapes.{Size};
ghost use Rattle.layout.specs.Superblocks.{HasMagic, IsSuperblock};
ghost use Rattle.layout.specs.Records.{IsRecord};
ghost use Rattle.layout.specs.Places.{IsPlaceHead};
ghost use Rattle.layout.specs.declared.places.PlaceHead.{PlaceHead};
ghost use Rattle.layout.specs.declared.records.Record.{Record};

/// A superblock is that of one size, and begins with the mark. A sector of zeros does not.
pub fn bytes_determine_superblock()
    ensures one { (y z : Size) (sector : List ℕ) → IsSuperblock y sector → IsSuperblock z sector → y ≡ z }
    ensures marked { (size : Size) (sector : List ℕ) → IsSuperblock size sector → HasMagic sector }
    ensures blank { (n : ℕ) → HasMagic (replicate n 0) → ⊥ }
{}

/// A sector is the spelling of one record, whatever the board.
pub fn bytes_determine_record()
    ensures { (size : Size) (r q : Record) (sector : List ℕ) → IsRecord size r sector → IsRecord size q sector → r ≡ q }
{}

/// A sector is the header of one place, whatever the board.
pub fn bytes_determine_place_head()
    ensures { (size : Size) (head other : PlaceHead) (sector : List ℕ) → IsPlaceHead size head sector
        → IsPlaceHead size other sector → head ≡ other }
{}
