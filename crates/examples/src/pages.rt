//! Memories that a number for each page stands for, and a number that stands for each page of a memory.

use board_model::Shape;
use ram::{Ram, Width};
use std::alloc::Global;

/// The address of the first byte.
const BASE: u64 = 0x8000_0000;

/// So many doubles are a page.
const DOUBLES: u64 = 512;

/// An odd number with bits in all places.
const MIXER: u64 = 0x9e37_79b9_7f4a_7c15;

/// The address of that double of that page.
fn place(page: u64, index: u64) -> u64 {
    BASE.wrapping_add(page.wrapping_mul(8 * DOUBLES))
        .wrapping_add(index.wrapping_mul(8))
}

/// Fills a page by its number: double i, from 1, is the product of both with [`MIXER`].
fn fill(ram: &mut Ram, page: u64, number: u64) -> Option<()> {
    for index in 0..DOUBLES {
        let double = number
            .wrapping_mul(index.wrapping_add(1))
            .wrapping_mul(MIXER);
        ram.store(place(page, index), Width::Double, double).ok()?;
    }
    Some(())
}

/// The memory of a board of that shape whose pages have these numbers. A page of number 0 is of zeros, and so are those
/// that have no number.
pub fn memory_of(alloc: Global, shape: Shape, numbers: &[u64]) -> Option<Ram> {
    let mut ram = Ram::new(alloc, shape).ok()?;
    let mut page = 0_u64;
    for &number in numbers {
        fill(&mut ram, page, number)?;
        page = page.wrapping_add(1);
    }
    Some(ram)
}

/// A number that stands for all bytes of a page: of its doubles, each times a power of [`MIXER`], the sum.
pub fn sum_of(ram: &Ram, page: u32) -> u64 {
    let mut sum = 0_u64;
    for index in 0..DOUBLES {
        let double = ram
            .load(place(u64::from(page), index), Width::Double)
            .unwrap_or(0);
        sum = sum.wrapping_mul(MIXER).wrapping_add(double);
    }
    sum
}
