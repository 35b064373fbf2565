//! Sectors byte by byte, as docs/STORE.md has them.

use crate::fixtures::same;
use board_model::{Addr, Boots, HartId, ImageHead, PageNo, Reason, Refusal, Shape, Slot, Trial};
use layout::{
    PlaceHead, Record, Saved, Side, Version, parse_place_head, parse_record, parse_superblock,
    place_head_bytes, record_bytes, superblock_bytes,
};
use std::process::Abort;

/// The sector has these bytes, and zeros after them.
fn is_of(sector: &[u8], bytes: &[u8]) -> bool {
    match sector.strip_prefix(bytes) {
        Some(rest) => rest.iter().all(|byte| *byte == 0),
        None => false,
    }
}

/// The sector with another byte at that place.
fn with_byte(sector: [u8; 512], place: usize, byte: u8) -> [u8; 512] {
    let mut other = sector;
    other[place % 512] = byte;
    other
}

#[test]
fn a_superblock_byte_by_byte(rt: HostRuntime) {
    let shape = Shape::new(2, 5, 4).expect(&rt, "a shape");
    let sector = superblock_bytes(&shape);
    assert!(&rt; is_of(&sector, b"SBIDISK1\x02\0\0\0\x05\0\0\0\x04\0\0\0"));
    same(&rt, shape.sectors(), 152);
    same(&rt, parse_superblock(&sector, 152), Ok(shape));
    let refused = parse_superblock(&sector, 151);
    same(&rt, refused, Err(Refusal::BadShape));
}

/// An image of hart 1 in the other area.
fn an_image(rt: &impl Abort) -> Saved {
    let head = ImageHead {
        serial: 6,
        hart: HartId::new(1).expect(rt, "hart 1"),
        address: Addr::new(0x8000_1000).expect(rt, "an address"),
        opaque: 0x0102_0304_0506_0708,
    };
    Saved {
        head,
        area: Side::first().other(),
        counts: [2, 2, 1, 0],
    }
}

/// A trial of 5 boots that falls back to slot 2.
fn a_trial(rt: &impl Abort) -> Trial {
    Trial {
        fallback: Slot::new(2).expect(rt, "slot 2"),
        left: Boots::new(5).expect(rt, "5 boots"),
    }
}

/// A record in that version, with that image or none, and with that trial or none.
fn a_record(version: Version, image: Option<Saved>, trial: Option<Trial>) -> Option<Record> {
    Some(Record {
        version,
        slot: Slot::new(3)?,
        reason: Reason::SystemFailure,
        next: 7,
        image,
        trial,
    })
}

/// Its bytes with both: version, slot, reason and whether it has an image; the next serial; of the image its serial, hart and area,
/// address, opaque value and counts; and the trial.
const WITH_BOTH: &[u8] = b"\x02\0\0\0\x03\0\0\0\x01\0\0\0\x01\0\0\0\x07\0\0\0\0\0\0\0\
\x06\0\0\0\0\0\0\0\x01\0\0\0\x01\0\0\0\0\x10\0\x80\0\0\0\0\x08\x07\x06\x05\x04\x03\x02\x01\
\x02\0\0\0\x02\0\0\0\x01\0\0\0\0\0\0\0\x01\0\0\0\x02\0\0\0\x05\0\0\0";

/// And in the first version with neither.
const BARE: &[u8] = b"\x01\0\0\0\x03\0\0\0\x01\0\0\0\0\0\0\0\x07\0\0\0\0\0\0\0";

/// The record has those bytes, and is read again.
fn is_record(rt: &impl Abort, record: Option<Record>, bytes: &[u8]) {
    let shape = Shape::new(2, 5, 3).expect(rt, "a shape");
    let record = record.expect(rt, "a record");
    let sector = record_bytes(&record);
    assert!(rt; is_of(&sector, bytes));
    same(rt, parse_record(&sector, &shape), Ok(record));
}

#[test]
fn records_byte_by_byte(rt: HostRuntime) {
    let (image, trial) = (an_image(&rt), a_trial(&rt));
    let with_both = a_record(Version::Two, Some(image), Some(trial));
    is_record(&rt, with_both, WITH_BOTH);
    is_record(&rt, a_record(Version::One, None, None), BARE);
}

#[test]
fn a_place_head_byte_by_byte(rt: HostRuntime) {
    let shape = Shape::new(1, 5, 1).expect(&rt, "a shape");
    let head = PlaceHead {
        page: PageNo::new(4).expect(&rt, "page 4"),
        serial: 258,
    };
    let sector = place_head_bytes(&head);
    assert!(&rt; is_of(&sector, b"\x04\0\0\0\0\0\0\0\x02\x01\0\0\0\0\0\0"));
    same(&rt, parse_place_head(&sector, &shape), Ok(head));
    for (place, byte) in [(0, 5), (4, 1)] {
        let other = parse_place_head(&with_byte(sector, place, byte), &shape);
        same(&rt, other, Err(Refusal::BadImage));
    }
}
