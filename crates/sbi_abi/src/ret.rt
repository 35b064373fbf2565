//! How a call is answered.

ghost use Rattle.std.specs.Prelude.{◌≡◌};
ghost use Rattle.hart.specs.State.{answered};
ghost use Rattle.sbi_abi.specs.Answers.{error_number, error_of, value_of};

use hart::Hart;

/// Why a call was not done (SBI specification 2.0, chapter 3, the table of standard errors).
#[derive(Clone, Copy, PartialEq, Eq, Drop)]
pub enum SbiError {
    /// -1.
    Failed,
    /// -2.
    NotSupported,
    /// -3.
    InvalidParam,
    /// -4.
    Denied,
    /// -5.
    InvalidAddress,
    /// -6.
    AlreadyAvailable,
    /// -7.
    AlreadyStarted,
    /// -8.
    AlreadyStopped,
}

/// What a call answers: a value, or an error, whose value is 0.
pub type SbiRet = Result<u64, SbiError>;

impl SbiError {
    /// The number of the error without its sign, 1 to 8.
    pub fn number(self) -> u64
        ensures { result ≡ error_number self }
    {
        match self {
            SbiError::Failed => 1,
            SbiError::NotSupported => 2,
            SbiError::InvalidParam => 3,
            SbiError::Denied => 4,
            SbiError::InvalidAddress => 5,
            SbiError::AlreadyAvailable => 6,
            SbiError::AlreadyStarted => 7,
            SbiError::AlreadyStopped => 8,
        }
    }
}

/// Answers the call at which a hart stands: the error goes to a0, the value to a1, the pc moves on past the
/// ECALL, and nothing else changes.
pub fn put(hart: &mut Hart, answer: SbiRet)
    ensures { hart.new ≡ answered hart.old (error_of answer) (value_of answer) }
{
    match answer {
        Ok(value) => hart.answer(0, value),
        Err(error) => hart.answer(0u64.wrapping_sub(error.number()), 0),
    }
}
