//! How a call ends.

ghost use Rattle.std.specs.Prelude.{◌≡◌};
ghost use Rattle.sbi_calls.specs.Answers.{Ends};

use crate::words::{Did, Turned};
use board_model::Addr;
use hart::Hart;
use sbi_abi::{SbiRet, put};

/// How a call ends.
#[derive(Clone, Copy, Drop)]
pub enum Ending {
    /// It is answered so.
    Answers(SbiRet),
    /// The hart stops, and no answer comes.
    Stops,
    /// The hart is suspended, and finds SUCCESS when it wakes.
    Suspends,
    /// The hart is suspended, and wakes as one that starts at the address with the opaque value.
    SuspendsAfresh(Addr, u64),
    /// It is left as it is, for what has the store at hand.
    Defers,
}

/// Gives the hart what the call ends with. What a suspended hart finds when it wakes is put at once.
pub(crate) fn end(hart: &mut Hart, ending: Ending) -> Turned
    ensures ends { Ends ending hart.old hart.new result }
    ensures id { hart.new.id ≡ hart.old.id }
{
    match ending {
        Ending::Answers(answer) => {
            put(hart, answer);
            Turned::Made(Did::Next)
        }
        Ending::Stops => Turned::Made(Did::Stopped),
        Ending::Suspends => {
            put(hart, Ok(0));
            Turned::Made(Did::Suspended)
        }
        Ending::SuspendsAfresh(site, opaque) => {
            *hart = Hart::fresh(hart.id(), site.value(), opaque);
            Turned::Made(Did::Suspended)
        }
        Ending::Defers => Turned::Durable,
    }
}
