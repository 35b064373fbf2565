//! Whether harts are shown to differ, so that they stand for no hart both.

ghost use Rattle.std.specs.Prelude.{◌≡◌, ◌<◌, true};
ghost use Rattle.hart.specs.State.{ArchState};
ghost use Rattle.model_board.specs.LeftOut.{HartFor};

use hart::Hart;
use hsm::Standing;
use model_board::{LEFT_OUT, Power};
use rv_decode::{CsrNumber, Reg};
use susp::Doze;

#[tactic(auto, using(crate::proofs::Differing::csr_differs))]
/// Whether a control and status register of two harts differs, where nothing is pending.
fn csr_differs(hart: &Hart, other: &Hart, number: u16) -> bool
    requires { number < 4096 }
    ensures { result ≡ true → (s : ArchState) → HartFor hart.now s → HartFor other.now s → ⊥ }
{
    hart.csr(CsrNumber::new(number), false) != other.csr(CsrNumber::new(number), false)
}

#[tactic(auto, using(crate::proofs::Differing::reg_differs))]
/// Whether a register of two harts differs that is left out of neither.
fn reg_differs(hart: &Hart, other: &Hart, number: u8) -> bool
    requires { number < 32 }
    ensures { result ≡ true → (s : ArchState) → HartFor hart.now s → HartFor other.now s → ⊥ }
{
    let (own, another) = (hart.reg(Reg::new(number)), other.reg(Reg::new(number)));
    own != another && own != LEFT_OUT && another != LEFT_OUT
}

#[tactic(auto, using(crate::proofs::Differing::pc_differs))]
/// Whether two harts differ, by what is read of them.
pub(crate) fn hart_differs(hart: &Hart, other: &Hart) -> bool
    ensures { result ≡ true → (s : ArchState) → HartFor hart.now s → HartFor other.now s → ⊥ }
{
    if hart.pc() != other.pc() {
        return true;
    }
    for number in 1..32 {
        if reg_differs(hart, other, number) {
            return true;
        }
    }
    // sscratch, sepc, scause and stval
    for number in 0x140..0x144 {
        if csr_differs(hart, other, number) {
            return true;
        }
    }
    // sstatus, sie and stvec
    if csr_differs(hart, other, 0x100) {
        return true;
    }
    if csr_differs(hart, other, 0x104) {
        return true;
    }
    csr_differs(hart, other, 0x105)
}

/// Whether two powers differ.
pub(crate) fn power_differs(power: Power, other: Power) -> bool
    ensures { result ≡ true → power ≡ other → ⊥ }
{
    power != other
}

/// Whether two boards doze otherwise.
pub(crate) fn doze_differs(doze: Option<Doze>, other: Option<Doze>) -> bool
    ensures { result ≡ true → doze ≡ other → ⊥ }
{
    doze != other
}

/// Whether two states differ.
pub(crate) fn state_differs(state: Standing, other: Standing) -> bool
    ensures { result ≡ true → state ≡ other → ⊥ }
{
    state != other
}

/// Whether the senders of a hart's pending interrupts differ.
pub(crate) fn pending_differs(senders: u8, others: u8) -> bool
    ensures { result ≡ true → senders ≡ others → ⊥ }
{
    senders != others
}
