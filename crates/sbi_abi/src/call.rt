//! Calls, and how registers ask for them.

ghost use Rattle.std.specs.Prelude.{◌≡◌, ℕ, ◌%◌, ◌^◌};
ghost use Rattle.sbi_abi.specs.Calls.{extension_at, call_at, call_of, low};

use hart::Hart;
use rv_decode::Reg;

/// An extension of which this table has calls (SBI specification 2.0).
#[derive(Clone, Copy, PartialEq, Eq, Drop)]
pub enum Extension {
    /// Chapter 4, 0x10.
    Base,
    /// Hart state management: chapter 9, 0x48534D.
    Hsm,
    /// Interrupts between harts: chapter 7, 0x735049.
    Ipi,
    /// System reset: chapter 10, 0x53525354.
    Srst,
    /// System suspend: chapter 13, 0x53555350.
    Susp,
}

/// A call with its arguments as the registers hold them, not checked yet. What the standard declares 32 bits
/// wide is the low half of its register.
#[derive(Clone, Copy, PartialEq, Eq, Drop)]
pub enum Call {
    /// `sbi_get_spec_version`.
    SpecVersion,
    /// `sbi_get_impl_id`.
    ImplementationId,
    /// `sbi_get_impl_version`.
    ImplementationVersion,
    /// `sbi_probe_extension`, of the extension of that number.
    Probe {
        extension: u64,
    },
    /// `sbi_get_mvendorid`.
    VendorId,
    /// `sbi_get_marchid`.
    ArchitectureId,
    /// `sbi_get_mimpid`.
    MachineId,
    /// `sbi_hart_start`.
    HartStart {
        hart: u64,
        address: u64,
        opaque: u64,
    },
    /// `sbi_hart_stop`.
    HartStop,
    /// `sbi_hart_get_status`.
    HartStatus {
        hart: u64,
    },
    /// `sbi_hart_suspend`.
    HartSuspend {
        kind: u32,
        address: u64,
        opaque: u64,
    },
    /// `sbi_send_ipi`.
    SendIpi {
        mask: u64,
        base: u64,
    },
    /// `sbi_system_reset`.
    SystemReset {
        kind: u32,
        reason: u32,
    },
    /// `sbi_system_suspend`.
    SystemSuspend {
        kind: u32,
        address: u64,
        opaque: u64,
    },
    /// No call of the table.
    Unknown,
}

/// The value of an argument that is declared 32 bits wide.
fn low(register: u64) -> u32
    ensures { result ≡ low register }
{
    (register % 0x1_0000_0000) as u32
}

/// The functions of one extension, a row each; any other number is no call.
macro_rules! functions {
    ($function:expr; $($number:literal => $call:expr,)*) => {
        match $function {
            $($number => $call,)*
            _ => Call::Unknown,
        }
    };
}

impl Extension {
    /// The extension of that number, compared in all 64 bits; None where the table has no call of it.
    pub fn at(number: u64) -> Option<Extension>
        ensures { result ≡ extension_at number }
    {
        match number {
            0x10 => Some(Extension::Base),
            0x48534d => Some(Extension::Hsm),
            0x735049 => Some(Extension::Ipi),
            0x53525354 => Some(Extension::Srst),
            0x53555350 => Some(Extension::Susp),
            _ => None,
        }
    }
}

impl Call {
    /// The call of these numbers with these arguments.
    fn at(extension: u64, function: u64, a0: u64, a1: u64, a2: u64) -> Call
        ensures { result ≡ call_at extension function a0 a1 a2 }
    {
        match Extension::at(extension) {
            None => Call::Unknown,
            Some(Extension::Base) => functions!(function;
                0 => Call::SpecVersion,
                1 => Call::ImplementationId,
                2 => Call::ImplementationVersion,
                3 => Call::Probe { extension: a0 },
                4 => Call::VendorId,
                5 => Call::ArchitectureId,
                6 => Call::MachineId,
            ),
            Some(Extension::Hsm) => functions!(function;
                0 => Call::HartStart { hart: a0, address: a1, opaque: a2 },
                1 => Call::HartStop,
                2 => Call::HartStatus { hart: a0 },
                3 => Call::HartSuspend { kind: low(a0), address: a1, opaque: a2 },
            ),
            Some(Extension::Ipi) => functions!(function;
                0 => Call::SendIpi { mask: a0, base: a1 },
            ),
            Some(Extension::Srst) => functions!(function;
                0 => Call::SystemReset { kind: low(a0), reason: low(a1) },
            ),
            Some(Extension::Susp) => functions!(function;
                0 => Call::SystemSuspend { kind: low(a0), address: a1, opaque: a2 },
            ),
        }
    }

    /// The call that a hart's registers ask for: the extension in a7, the function in a6, the arguments from
    /// a0 on.
    pub fn of(hart: &Hart) -> Call
        ensures { result ≡ call_of hart.now }
    {
        Call::at(
            hart.reg(Reg::new(17)),
            hart.reg(Reg::new(16)),
            hart.reg(Reg::new(10)),
            hart.reg(Reg::new(11)),
            hart.reg(Reg::new(12)),
        )
    }
}
