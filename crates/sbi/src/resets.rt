//! What a system reset asks for.

ghost use Rattle.std.specs.Prelude.{◌≡◌};
ghost use Rattle.sbi.specs.Resets.{reset_of};

use board_model::Reason;
use sbi_abi::SbiError;

/// Which reset (SBI specification 2.0, `sbi_system_reset`). Both end the life.
#[derive(Clone, Copy, PartialEq, Eq, Drop)]
pub enum ResetType {
    /// 0.
    Shutdown,
    /// 1.
    ColdReboot,
}

/// The reset of that type and reason, whose arguments are checked in this order: -3 for a type that the
/// standard has not, or a reason other than none and system failure; -2 for a warm reboot, which this board
/// has not.
pub fn reset_of(kind: u32, reason: u32) -> Result<(ResetType, Reason), SbiError>
    ensures { result ≡ reset_of kind reason }
{
    if 2 < kind {
        return Err(SbiError::InvalidParam);
    }
    if 1 < reason {
        return Err(SbiError::InvalidParam);
    }
    if kind == 2 {
        return Err(SbiError::NotSupported);
    }
    let reset = if kind == 0 {
        ResetType::Shutdown
    } else {
        ResetType::ColdReboot
    };
    let why = if reason == 0 {
        Reason::NoReason
    } else {
        Reason::SystemFailure
    };
    Ok((reset, why))
}
