//! Where harts stand that make no progress: trapped for ever, or waiting for an interrupt that no hart sends.

ghost use Rattle.std.specs.Prelude.{◌≡◌, ◌<◌, ℕ, IfSome, true};
ghost use Rattle.hsm.specs.Copies.{state_told};
ghost use Rattle.hsm.specs.States.{started, stopped, suspended};
ghost use Rattle.machine.specs.Machine.{state_at};
ghost use Rattle.kernel_check.specs.Failures.{AwaitsNone, IsOnAs, IsOutside, IsTrapped, IsTrappedBy, IsWaiting};

use crate::facts::HartState;
use crate::places::is_in_ram;
use board_model::{HartId, Shape};
use hart::Hart;
use hsm::Standing;
use model_board::{Board, Status};
use rv_decode::{CsrNumber, STVEC};

/// What is read of a CSR, by its number; 0 where there is none.
pub fn csr(hart: &Hart, number: u32) -> u64
    requires { number < 4096 }
{
    hart.csr(CsrNumber::new(number as u16), false).unwrap_or(0)
}

/// Where the traps of a hart go.
#[tactic(auto, using(crate::proofs::HartStates::reads_stvec))]
fn handler_of(hart: &Hart) -> u64
    ensures { result ≡ hart.now.stvec }
{
    match hart.csr(CsrNumber::new(STVEC as u16), false) {
        Some(handler) => handler,
        None => 0,
    }
}

/// The state of a hart.
#[tactic(auto, using(crate::proofs::HartStates::state_copied))]
pub fn standing_of(board: &Board, hart: HartId) -> Standing
    requires { hart < board.now.size.harts }
    ensures { state_told result ≡ state_at board.now.machine hart }
{
    let _machine = board.machine();
    let rest = board.rest();
    rest.tables.states[hart.index()]
}

/// The state of a hart, as it is told.
pub fn state_of(board: &Board, hart: HartId) -> HartState
    requires { hart < board.now.size.harts }
{
    match standing_of(board, hart) {
        Standing::Stopped => HartState::Stopped,
        Standing::StartPending(_, _) => HartState::StartPending,
        Standing::Started => HartState::Started,
        Standing::Suspended => HartState::Suspended,
    }
}

/// Whether a hart in that state, of a board of that shape that is on, makes no instruction any more.
pub fn stays_trapped(shape: &Shape, state: Standing, stands: &Hart) -> bool
    ensures started { result ≡ true → state_told state ≡ started }
    ensures stands { result ≡ true → IsOutside shape.now stands.now.pc }
    ensures handler { result ≡ true → IsOutside shape.now stands.now.stvec }
{
    matches!(state, Standing::Started)
        && !is_in_ram(shape, stands.pc())
        && !is_in_ram(shape, handler_of(stands))
}

/// Whether a hart of a board that is on makes no instruction any more.
fn is_trapped_by(board: &Board, hart: HartId) -> bool
    requires { hart < board.now.size.harts }
    ensures { result ≡ true → IsTrappedBy board.now.machine hart }
{
    let machine = board.machine();
    let state = standing_of(board, hart);
    stays_trapped(machine.shape(), state, machine.hart(hart))
}

/// Whether a hart makes no instruction any more: it is started and stands outside of RAM, and each trap leads it there again.
pub fn is_trapped(board: &Board, hart: HartId) -> bool
    requires { hart < board.now.size.harts }
{
    board.status() == Status::On && is_trapped_by(board, hart)
}

/// Whether a hart of the board is trapped so.
#[tactic(auto, using(crate::proofs::HartStates::on_as))]
pub fn is_any_trapped(board: &Board) -> bool
    ensures { result ≡ true → IsOnAs IsTrapped board.now.board }
{
    if board.status() != Status::On {
        return false;
    }
    for number in 0..8u64 {
        if let Some(hart) = board.machine().shape().hart(number)
            && is_trapped_by(board, hart)
        {
            return true;
        }
    }
    false
}

/// Whether a hart has stopped, or is suspended with no interrupt pending for it.
fn awaits_none(board: &Board, hart: HartId) -> bool
    requires { hart < board.now.size.harts }
    ensures { result ≡ true → AwaitsNone board.now.machine hart }
{
    match standing_of(board, hart) {
        Standing::Stopped => true,
        Standing::Suspended => !board.machine().is_pending(hart),
        Standing::Started | Standing::StartPending(_, _) => false,
    }
}

/// Whether each hart has stopped, or is suspended with no interrupt pending for it.
fn all_await_none(board: &Board) -> bool
    ensures { result ≡ true → (h : ℕ) → h < board.now.machine.size.harts → AwaitsNone board.now.machine h }
{
    let _harts = board.machine().shape().harts();
    for number in 0..8u64 {
        if let Some(hart) = board.machine().shape().hart(number)
            && !awaits_none(board, hart)
        {
            return false;
        }
    }
    true
}

/// The first hart that is suspended.
fn first_suspended(board: &Board) -> Option<HartId>
    ensures { IfSome result (λ h. (h < board.now.machine.size.harts) × (state_at board.now.machine h ≡ suspended)) }
{
    for number in 0..8u64 {
        if let Some(hart) = board.machine().shape().hart(number)
            && matches!(standing_of(board, hart), Standing::Suspended)
        {
            return Some(hart);
        }
    }
    None
}

/// Whether harts wait for an interrupt that no hart will send: one is suspended, and none is started or about to start.
#[tactic(auto, using(crate::proofs::HartStates::on_as))]
pub fn is_waited_for_ever(board: &Board) -> bool
    ensures { result ≡ true → IsOnAs IsWaiting board.now.board }
{
    board.status() == Status::On
        && board.rest().doze.is_none()
        && first_suspended(board).is_some()
        && all_await_none(board)
}
