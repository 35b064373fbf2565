//! The header of a place.
ghost use Rattle.std.specs.Prelude.{◌≡◌, ◌<◌, ◌^◌, Ok, Some, IfOk, IfErr, IfSome};
ghost use Rattle.layout.specs.Places.{place_fields, place_head_of, IsPlaceHead};
ghost use Rattle.layout.specs.Fields.{FitAll};
ghost use Rattle.layout.specs.declared.places.PlaceHead.{PlaceHead};

use crate::fields::{Filling, is_same, u32_at, u64_at};
use board_model::{PageNo, Refusal, Shape};

/// The header of a place: which page stands there, and for the image of which serial.
#[derive(Clone, Copy, PartialEq, Eq, Drop)]
pub struct PlaceHead {
    pub page: PageNo,
    pub serial: u64,
}

/// The header's bytes (docs/STORE.md, "Areas").
pub fn place_head_bytes(head: &PlaceHead) -> [u8; 512]
    ensures { result ≡ place_head_of head.now }
{
    let mut sector = Filling::new();
    sector.u32(head.page.number());
    sector.u32(0);
    sector.u64(head.serial);
    sector.finish()
}

/// The header that the sector is the one spelling of, on a board of that shape. Refused `BadImage` where
/// there is none: a page that the board lacks, or a byte that is not 0 where the form has 0.
pub fn parse_place_head(sector: &[u8; 512], shape: &Shape) -> Result<PlaceHead, Refusal>
    ensures ok { IfOk result (λ head. IsPlaceHead shape.now head sector.now) }
    ensures exact { (head : PlaceHead) → IsPlaceHead shape.now head sector.now → result ≡ Ok head }
    ensures refused { IfErr result (λ e. e ≡ Refusal.BadImage) }
{
    let head = head_in(sector, shape).ok_or(Refusal::BadImage)?;
    if !is_same(&place_head_bytes(&head), sector) {
        return Err(Refusal::BadImage);
    }
    Ok(head)
}

/// The header that the numbers of the sector make, where the board has the page.
fn head_in(sector: &[u8; 512], shape: &Shape) -> Option<PlaceHead>
    ensures in_range { IfSome result (λ head. (head.page < shape.now.pages) × FitAll (place_fields head)) }
    ensures exact { (head : PlaceHead) → IsPlaceHead shape.now head sector.now → result ≡ Some head }
{
    let page = shape.page(u32_at(sector, 0) as u64)?;
    let serial = u64_at(sector, 8);
    Some(PlaceHead { page, serial })
}
