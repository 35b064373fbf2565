//! Which harts a hart mask names.

ghost use Rattle.std.specs.Prelude.{◌≡◌, ◌↔◌, ℕ, ◌+◌, ◌*◌, ◌-◌, ◌/◌, ◌%◌, ◌^◌, ◌<◌, ◌≤◌, IfOk, IfErr};
ghost use Rattle.board_model.specs.HartSets.{Has};
ghost use Rattle.sbi_abi.specs.Masks.{IsNamed, IsBadMask, targets_of};
ghost use Rattle.sbi_abi.specs.declared.ret.SbiError.TheVariants.{InvalidParam};

use crate::ret::SbiError;
use board_model::HartSet;

/// The harts that a mask and its base name on a board of so many harts (SBI specification 2.0, chapter 3,
/// hart list parameter): all of them, where every bit of the base is set, whatever the mask is; else bit `i`
/// of the mask names the hart `base + i`, and an empty mask names none. Refused `InvalidParam` exactly where
/// the base is no hart of the board, or a hart named is none; a sum past 64 bits is no hart's number.
pub fn targets(mask: u64, base: u64, harts: u32) -> Result<HartSet, SbiError>
    requires few { harts ≤ 8 }
    ensures value { result ≡ targets_of mask base harts }
    ensures named { IfOk result (λ set. (h : ℕ) → Has h set ↔ IsNamed mask base harts h) }
    ensures good { IfOk result (λ set. IsBadMask mask base harts → ⊥) }
    ensures bad { IfErr result (λ e. (e ≡ InvalidParam) × IsBadMask mask base harts) }
{
    let count = u64::from(harts);
    if base == u64::MAX {
        return Ok(HartSet::of((1 << harts) - 1));
    }
    if count <= base {
        return Err(SbiError::InvalidParam);
    }
    let past = mask >> (count - base);
    if past != 0 {
        return Err(SbiError::InvalidParam);
    }
    Ok(HartSet::of(mask << base))
}
