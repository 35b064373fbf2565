//! A talk with GDB.

ghost use Rattle.std.specs.Prelude.{◌<◌};
ghost use Rattle.std.specs.Option.{ForSome};
ghost use Rattle.debug_session.specs.Sessions.{size_of};

use board_model::HartId;
use debug_session::{Session, Stop};

/// A talk with GDB about a session.
#[derive(Drop)]
pub struct Talk<'a, C> {
    pub(crate) session: Session<'a, C>,
    /// The hart that is shown.
    pub(crate) hart: HartId,
    /// The hart that steps and goes on first, where `Hc` chose one; else it is the one that is selected.
    pub(crate) runner: Option<HartId>,
    /// The hart that GDB has selected: that of the last stop, or of the thread that it asked about since (`T`), as it does where its
    /// user selects one. It shows harts (`Hg`) that it does not select.
    pub(crate) selected: HartId,
    /// Why nothing runs.
    pub(crate) last: Stop,
    /// Whether GDB takes `swbreak` as a reason.
    pub(crate) takes_swbreak: bool,
    pub(crate) acknowledges: bool,
    pub(crate) is_over: bool,
    /// What was sent last in answer to a packet, since it may be wanted again.
    pub(crate) sent: Vec<u8>,
    ghost there: { hart < (size_of session).harts },
    ghost selected_there: { selected < (size_of session).harts },
    ghost runner_there: { ForSome runner (λ h. h < (size_of session).harts) },
}
