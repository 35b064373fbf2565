//! The keys of harts, and of what is a board beside its harts and its memory.

ghost use Rattle.std.specs.Prelude.{◌≡◌, ◌<◌, true};

use crate::records::Recorded;
use hart::Hart;
use hsm::Standing;
use model_board::{Power, Rest, TableCopy};
use rv_decode::{CsrNumber, Reg};
use store::Resumption;
use susp::Doze;

/// An odd number with bits everywhere.
const FACTOR: u64 = 0xd6e8_feb8_6659_fd93;

/// One more word.
#[inline(always)]
fn mixed(key: u64, word: u64) -> u64 {
    let folded = (key ^ word).wrapping_mul(FACTOR);
    folded ^ (folded >> 29)
}

/// What a control and status register holds, where nothing is pending.
#[inline]
fn kept(hart: &Hart, number: u16) -> u64
    requires { number < 4096 }
{
    match hart.csr(CsrNumber::new(number), false) {
        Some(value) => value,
        None => 0,
    }
}

impl Recorded for Hart {
    fn key(&self) -> u64 {
        let mut key = mixed(self.pc(), u64::from(self.id().number()));
        for number in 1..32 {
            key = mixed(key, self.reg(Reg::new(number)));
        }
        // sscratch, sepc, scause and stval
        for number in 0x140..0x144 {
            key = mixed(key, kept(self, number));
        }
        // sstatus, sie and stvec
        key = mixed(key, kept(self, 0x100));
        key = mixed(key, kept(self, 0x104));
        mixed(key, kept(self, 0x105))
    }

    fn is_as(&self, other: &Hart) -> bool {
        self.is_as(other)
    }

    fn copy(&self) -> Hart {
        self.copy()
    }

    fn size() -> usize {
        size_of::<Hart>()
    }
}

fn resumption_key(key: u64, at: Resumption) -> u64 {
    mixed(
        mixed(mixed(key, u64::from(at.hart.number())), at.address.value()),
        at.opaque,
    )
}

fn power_key(power: Power) -> u64 {
    match power {
        Power::On => 1,
        Power::Off(None) => 2,
        Power::Off(Some(at)) => resumption_key(3, at),
        Power::Ended => 4,
    }
}

fn doze_key(key: u64, doze: Option<Doze>) -> u64 {
    match doze {
        None => key,
        Some(doze) => mixed(resumption_key(key, doze.at), u64::from(doze.woken)),
    }
}

fn state_key(key: u64, state: Standing) -> u64 {
    match state {
        Standing::Stopped => mixed(key, 1),
        Standing::StartPending(address, opaque) => mixed(mixed(key, address.value()), opaque),
        Standing::Started => mixed(key, 2),
        Standing::Suspended => mixed(key, 3),
    }
}

fn tables_key(key: u64, tables: &TableCopy) -> u64 {
    let mut key = mixed(key, u64::from_le_bytes(tables.pending));
    for state in &tables.states {
        key = state_key(key, *state);
    }
    key
}

/// Whether the states are the same, place by place.
fn are_same_states(states: &[Standing; 8], others: &[Standing; 8]) -> bool
    ensures { result ≡ true → others.now ≡ states.now }
{
    for place in 0..8usize {
        if states[place] != others[place] {
            return false;
        }
    }
    true
}

fn are_same_pending(pending: &[u8; 8], others: &[u8; 8]) -> bool
    ensures { result ≡ true → others.now ≡ pending.now }
{
    *pending == *others
}

fn are_same_tables(tables: &TableCopy, others: &TableCopy) -> bool
    ensures { result ≡ true → others.now ≡ tables.now }
{
    are_same_pending(&tables.pending, &others.pending)
        && are_same_states(&tables.states, &others.states)
}

impl Recorded for Rest {
    fn key(&self) -> u64 {
        let key = mixed(power_key(self.power), u64::from(self.reason.number()));
        tables_key(
            doze_key(mixed(key, u64::from(self.down)), self.doze),
            &self.tables,
        )
    }

    fn is_as(&self, other: &Rest) -> bool {
        self.power == other.power
            && self.reason == other.reason
            && self.down == other.down
            && self.doze == other.doze
            && are_same_tables(&self.tables, &other.tables)
    }

    fn copy(&self) -> Rest {
        *self
    }

    fn size() -> usize {
        size_of::<Rest>()
    }
}
