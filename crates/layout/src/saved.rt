//! What a record keeps of an image.

ghost use Rattle.std.specs.Prelude.{◌≡◌, ◌<◌, ◌≤◌, ◌↔◌, ◌++◌, Some, IfSome, IsTrue, length, slice_index};
ghost use Rattle.layout.specs.Fields.{fields_bytes, number_at};
ghost use Rattle.layout.specs.Records.{AreCounts, most_places, image_fields, saved_fields, presence_of, IsSaved};
ghost use Rattle.layout.specs.Read.{StandsIn};

use crate::fields::{Filling, u32_at, u64_at};
use crate::side::Side;
use board_model::{ImageHead, Shape};

/// What a record keeps of an image.
#[derive(Clone, Copy, PartialEq, Eq, Drop)]
pub struct Saved {
    pub head: ImageHead,
    /// The area that its memory stands in.
    pub area: Side,
    /// How many places of lanes 0 to 3 hold its pages.
    pub counts: [u32; 4],
}

pub(crate) fn presence_of(image: &Option<Saved>) -> u32
    ensures { result ≡ presence_of image.now }
{
    match image {
        None => 0,
        Some(_) => 1,
    }
}

/// The 48 bytes of an image, or of none.
pub(crate) fn fill_image(sector: &mut Filling, image: &Option<Saved>)
    requires { length sector.old ≡ 24 }
    ensures value { sector.new ≡ sector.old ++ fields_bytes (image_fields image.now) }
    ensures longer { length sector.new ≡ 72 }
{
    match image {
        None => sector.bytes(&[0; 48]),
        Some(saved) => fill_saved(sector, saved),
    }
}

/// The image's 48 bytes.
fn fill_saved(sector: &mut Filling, saved: &Saved)
    requires { length sector.old ≡ 24 }
    ensures value { sector.new ≡ sector.old ++ fields_bytes (saved_fields saved.now) }
    ensures longer { length sector.new ≡ 72 }
{
    sector.u64(saved.head.serial);
    sector.u32(saved.area.number());
    sector.u32(saved.head.hart.number());
    sector.u64(saved.head.address.value());
    sector.u64(saved.head.opaque);
    let [zero, one, two, three] = saved.counts;
    sector.u32(zero);
    sector.u32(one);
    sector.u32(two);
    sector.u32(three);
}

/// What the numbers of the sector keep of an image, where each is in its range.
pub(crate) fn saved_in(sector: &[u8; 512], shape: &Shape, next: u64) -> Option<Saved>
    ensures in_range { IfSome result (λ s. IsSaved shape.now next s) }
    ensures exact { (s : Saved) → IsSaved shape.now next s → StandsIn sector.now s → result ≡ Some s }
{
    let serial = u64_at(sector, 24);
    let area = Side::new(u32_at(sector, 32))?;
    let hart = shape.hart(u32_at(sector, 36) as u64)?;
    let address = shape.address(u64_at(sector, 40))?;
    let opaque = u64_at(sector, 48);
    let counts = counts_in(sector);
    if next <= serial || !are_counts(&counts, shape) {
        return None;
    }
    let head = ImageHead {
        serial,
        hart,
        address,
        opaque,
    };
    Some(Saved { head, area, counts })
}

/// The counts of pages in lanes 0 to 3.
fn counts_in(sector: &[u8; 512]) -> [u32; 4]
    ensures zero { slice_index result 0 ≡ number_at 4 56 sector.now }
    ensures one { slice_index result 1 ≡ number_at 4 60 sector.now }
    ensures two { slice_index result 2 ≡ number_at 4 64 sector.now }
    ensures three { slice_index result 3 ≡ number_at 4 68 sector.now }
    ensures four { length result ≡ 4 }
{
    [
        u32_at(sector, 56),
        u32_at(sector, 60),
        u32_at(sector, 64),
        u32_at(sector, 68),
    ]
}

/// Whether so many pages stand in each lane: none where the board lacks it, and all of them together.
fn are_counts(counts: &[u32; 4], shape: &Shape) -> bool
    ensures { IsTrue result ↔ AreCounts shape.now counts.now }
{
    let mut pages = 0;
    for (lane, &count) in counts.iter().enumerate() {
        if most_places(shape, lane) < count {
            return false;
        }
        pages += count;
    }
    pages == shape.pages()
}

fn most_places(shape: &Shape, lane: usize) -> u32
    ensures value { result ≡ most_places shape.now lane }
    ensures range { result ≤ 256 }
{
    if lane < shape.lanes() as usize {
        shape.places() as u32
    } else {
        0
    }
}
