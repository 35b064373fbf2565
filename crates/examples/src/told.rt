//! What was seen, in words.

use crate::pages::sum_of;
use board_model::Durable;
use hart::Hart;
use ram::Ram;
use rv_decode::Reg;
use std::fmt;
use theorem::Seen;

/// All that was seen, with `; ` between.
#[derive(Drop)]
pub struct AllSeen<'a>(pub &'a [Seen]);

impl fmt::Display for AllSeen<'_> {
    fn fmt<W: fmt::Write>(&self, f: &mut fmt::Formatter<W>) -> fmt::Result {
        let mut between = "";
        for seen in self.0 {
            f.write_str(between)?;
            tell(f, seen)?;
            between = "; ";
        }
        Ok(())
    }
}

/// A word, and numbers after it.
fn list<W: fmt::Write>(f: &mut fmt::Formatter<W>, word: &str, numbers: &[u64]) -> fmt::Result {
    f.write_str(word)?;
    for number in numbers {
        write!(f, " {number}")?;
    }
    Ok(())
}

/// What was seen of one that was asked.
fn tell<W: fmt::Write>(f: &mut fmt::Formatter<W>, seen: &Seen) -> fmt::Result {
    match seen {
        Seen::Opened(found) => tell_state(f, found),
        Seen::Acked(receipt) => list(f, "acked", &[u64::from(receipt.number())]),
        Seen::Read(ram) => {
            f.write_str("read")?;
            tell_pages(f, ram)
        }
        Seen::Woke(hart, ram) => {
            tell_hart(f, hart)?;
            tell_pages(f, ram)
        }
        Seen::Denied(refusal) => list(f, "denied", &[u64::from(refusal.code())]),
        Seen::NotOpen => f.write_str("not-open"),
        Seen::Done => f.write_str("done"),
    }
}

/// The state that an open found.
fn tell_state<W: fmt::Write>(f: &mut fmt::Formatter<W>, found: &Durable) -> fmt::Result {
    let slot = u64::from(found.slot.number());
    let reason = u64::from(found.reason.number());
    list(f, "opened", &[slot, reason, found.next])?;
    if let Some(trial) = found.trial {
        let fallback = u64::from(trial.fallback.number());
        list(f, " trial", &[fallback, u64::from(trial.left.number())])?;
    }
    if let Some(head) = found.image {
        let hart = u64::from(head.hart.number());
        list(
            f,
            " image",
            &[head.serial, hart, head.address.value(), head.opaque],
        )?;
    }
    Ok(())
}

/// A hart that goes on: its number, where, and its registers.
fn tell_hart<W: fmt::Write>(f: &mut fmt::Formatter<W>, hart: &Hart) -> fmt::Result {
    list(f, "woke", &[u64::from(hart.id().number()), hart.pc()])?;
    for register in 1..32_u8 {
        list(f, "", &[hart.reg(Reg::new(register))])?;
    }
    Ok(())
}

/// A number for each page of a memory.
fn tell_pages<W: fmt::Write>(f: &mut fmt::Formatter<W>, ram: &Ram) -> fmt::Result {
    for page in 0..ram.pages() {
        list(f, "", &[sum_of(ram, page)])?;
    }
    Ok(())
}
