//! Records to numbers and back.

ghost use Rattle.std.specs.Prelude.{◌≡◌, ◌<◌, ℕ, length, true, IfOk};
ghost use Rattle.board_space.specs.Records.{IsAt, Stays};

use state_space::{Interner, Refused};
use std::alloc::Global;

/// How many records may share a key.
const MOST_OF_A_KEY: u64 = 1000;

/// What a store of records asks of each.
pub trait Recorded: Drop {
    ghost use Rattle.std.specs.Prelude.{◌≡◌, true};

    /// A number by which the record is found. Equal records have one key; that others have another is a guess.
    fn key(&self) -> u64;

    /// Whether the other one is the same.
    fn is_as(&self, other: &Self) -> bool
        ensures { result ≡ true → other.now ≡ self.now };

    /// The same record.
    fn copy(&self) -> Self
        ensures { result ≡ self.now };

    /// How many bytes a record takes.
    fn size() -> usize;
}

/// Records to numbers and back, numbered as they came. An equal one is found by its key and compared whole.
#[derive(Drop)]
pub struct Records<T: Recorded> {
    keys: Interner,
    records: Vec<T>,
}

/// The number of a record, or the next number where it is not there.
fn place<T: Recorded>(keys: &mut Interner, records: &[T], item: &T) -> Result<usize, Refused>
    ensures { IfOk result (λ n. n < length records.now → IsAt records.now n item.now) }
{
    let key = item.key();
    for salt in 0..MOST_OF_A_KEY {
        let number = keys.put(&[key, salt])?;
        if records.len() <= number || item.is_as(&records[number]) {
            return Ok(number);
        }
    }
    Err(Refused::Numbers)
}

impl<T: Recorded> Records<T> {
    /// No record.
    pub fn new(alloc: Global) -> Result<Records<T>, Refused> {
        Ok(Records {
            keys: Interner::new(alloc)?,
            records: Vec::new(alloc),
        })
    }

    /// How many records there are.
    pub fn count(&self) -> usize
        ensures { result ≡ length self.now.records.items }
    {
        self.records.len()
    }

    /// The record of that number.
    #[inline]
    pub fn get(&self, number: u32) -> &T
        requires { number < length self.now.records.items }
        ensures { IsAt self.now.records.items number result.now }
    {
        &self.records[number as usize]
    }

    /// Whether that number is of the same record.
    #[inline]
    pub fn is_at(&self, number: u32, item: &T) -> bool
        ensures { result ≡ true → IsAt self.now.records.items number item.now }
    {
        (number as usize) < self.records.len() && item.is_as(&self.records[number as usize])
    }

    /// How much memory they take, in bytes.
    pub fn bytes(&self) -> u64 {
        let records = (self.records.capacity() as u64).saturating_mul(T::size() as u64);
        self.keys.bytes().saturating_add(records)
    }

    /// The same as `put`, where the record is likely to be that of a number.
    #[inline]
    pub fn put_near(&mut self, item: &T, near: u32) -> Result<u32, Refused>
        ensures put { IfOk result (λ n. IsAt self.new.records.items n item.now) }
        ensures stay { Stays self.old.records.items self.new.records.items }
    {
        if (near as usize) < self.records.len() && item.is_as(&self.records[near as usize]) {
            return Ok(near);
        }
        self.put(item)
    }

    /// The number of the record that equals this one. Where there is none it is added at the end. At `Err` the records are as
    /// they were.
    pub fn put(&mut self, item: &T) -> Result<u32, Refused>
        ensures put { IfOk result (λ n. IsAt self.new.records.items n item.now) }
        ensures stay { Stays self.old.records.items self.new.records.items }
    {
        let number = place(&mut self.keys, &self.records, item)?;
        let Ok(told) = u32::try_from(number) else {
            return Err(Refused::Numbers);
        };
        if number < self.records.len() {
            return Ok(told);
        }
        if number != self.records.len() {
            return Err(Refused::Numbers);
        }
        self.records.push(item.copy())?;
        Ok(told)
    }
}
