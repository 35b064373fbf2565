//! What the first word of the table says of the harts: four sets, a byte each (docs/TABLES.md).

ghost use Rattle.std.specs.Prelude.{◌≡◌, ℕ, ◌+◌, ◌%◌, ◌<◌};
ghost use Rattle.std.specs.Int.{bit_at};

use board_model::HartSet;

/// The harts that are claimed.
pub(crate) fn claimed_in(found: u64) -> HartSet
    ensures value { result ≡ found % 256 }
    ensures bits { (h : ℕ) → h < 8 → bit_at result h ≡ bit_at found h }
{
    HartSet::in_byte(found, 0)
}

/// The harts that are armed.
pub(crate) fn armed_in(found: u64) -> HartSet
    ensures { (h : ℕ) → h < 8 → bit_at result h ≡ bit_at found (8 + h) }
{
    HartSet::in_byte(found, 1)
}

/// The harts that have entered.
pub(crate) fn entered_in(found: u64) -> HartSet
    ensures { (h : ℕ) → h < 8 → bit_at result h ≡ bit_at found (16 + h) }
{
    HartSet::in_byte(found, 2)
}

/// The harts that are suspended.
pub(crate) fn suspended_in(found: u64) -> HartSet
    ensures { (h : ℕ) → h < 8 → bit_at result h ≡ bit_at found (24 + h) }
{
    HartSet::in_byte(found, 3)
}
