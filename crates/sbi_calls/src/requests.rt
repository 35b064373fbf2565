//! What a call asks for, once its arguments are checked.

ghost use Rattle.std.specs.Prelude.{◌≡◌, ◌<◌, IfOk};
ghost use Rattle.sbi_abi.specs.Masks.{targets_of};
ghost use Rattle.sbi_abi.specs.declared.call.Call.TheVariants.{HartStart, HartStatus, HartSuspend, SendIpi};
ghost use Rattle.sbi_calls.specs.Requests.{request_of, hart_in, address_in, probed, suspend_of, IsWithin};

use board_model::{Addr, HartId, HartSet, Shape};
use sbi_abi::{Call, Extension, SbiError, targets};

/// What a call asks of the board.
#[derive(Clone, Copy, Drop)]
pub enum Request {
    /// This value for an answer, and nothing else.
    Value(u64),
    /// That the hart be started at the address with the opaque value.
    Start(HartId, Addr, u64),
    /// That the calling hart stop.
    Stop,
    /// The state of the hart.
    Status(HartId),
    /// That the calling hart be suspended, and go on after its call when it wakes.
    Suspend,
    /// That the calling hart be suspended, and wake as one that starts at the address with the opaque value.
    SuspendAfresh(Addr, u64),
    /// An interrupt from the calling hart to each of these.
    Send(HartSet),
    /// A durable command, if the arguments, the tables and the store allow it: what asks the store checks
    /// them.
    Command,
}

/// The version of the specification: the major number 2 in bits 24 to 30, the minor number 0 below.
const SPEC_VERSION: u64 = 0x0200_0000;

/// The number of this implementation, which is its own.
const IMPLEMENTATION: u64 = 0x5242;

/// The version of this implementation.
const IMPLEMENTATION_VERSION: u64 = 1;

/// Default non-retentive suspend (SBI specification 2.0, `sbi_hart_suspend`); the retentive one has the
/// number 0.
const NON_RETENTIVE: u32 = 0x8000_0000;

/// An arm for each call, of those that are answered with a value and of those that ask for more; the others
/// are not supported.
macro_rules! rows {
    ($call:expr; value { $($told:pat => $value:expr,)* } ask { $($asks:pat => $request:expr,)* }) => {
        match $call {
            $($told => Ok(Request::Value($value)),)*
            $($asks => $request,)*
            _ => Err(SbiError::NotSupported),
        }
    };
}

fn hart_in(shape: &Shape, number: u64) -> Result<HartId, SbiError>
    ensures value { result ≡ hart_in shape.now number }
    ensures within { IfOk result (λ hart. hart < shape.now.harts) }
{
    match shape.hart(number) {
        Some(hart) => Ok(hart),
        None => Err(SbiError::InvalidParam),
    }
}

fn address_in(shape: &Shape, address: u64) -> Result<Addr, SbiError>
    ensures { result ≡ address_in shape.now address }
{
    match shape.address(address) {
        Some(site) => Ok(site),
        None => Err(SbiError::InvalidAddress),
    }
}

/// 1 where this firmware has calls of the extension, else 0.
fn probed(extension: u64) -> u64
    ensures { result ≡ probed extension }
{
    match Extension::at(extension) {
        Some(_) => 1,
        None => 0,
    }
}

fn start(shape: &Shape, hart: u64, address: u64, opaque: u64) -> Result<Request, SbiError>
    ensures value { result ≡ request_of shape.now (HartStart hart address opaque) }
    ensures within { IsWithin shape.now.harts result }
{
    let target = hart_in(shape, hart)?;
    let site = address_in(shape, address)?;
    Ok(Request::Start(target, site, opaque))
}

fn status(shape: &Shape, hart: u64) -> Result<Request, SbiError>
    ensures value { result ≡ request_of shape.now (HartStatus hart) }
    ensures within { IsWithin shape.now.harts result }
{
    let asked = hart_in(shape, hart)?;
    Ok(Request::Status(asked))
}

fn suspend(shape: &Shape, kind: u32, address: u64, opaque: u64) -> Result<Request, SbiError>
    ensures value { result ≡ request_of shape.now (HartSuspend kind address opaque) }
    ensures within { IsWithin shape.now.harts result }
{
    match kind {
        0 => Ok(Request::Suspend),
        NON_RETENTIVE => {
            let site = address_in(shape, address)?;
            Ok(Request::SuspendAfresh(site, opaque))
        }
        _ => Err(SbiError::InvalidParam),
    }
}

fn send(shape: &Shape, mask: u64, base: u64) -> Result<Request, SbiError>
    ensures value { result ≡ request_of shape.now (SendIpi mask base) }
    ensures within { IsWithin shape.now.harts result }
{
    let targets = targets(mask, base, shape.harts())?;
    Ok(Request::Send(targets))
}

/// What the call asks for on a board of that shape, or the error by which its arguments are refused.
pub fn request_of(call: Call, shape: &Shape) -> Result<Request, SbiError>
    ensures value { result ≡ request_of shape.now call }
    ensures within { IsWithin shape.now.harts result }
{
    rows!(call;
        value {
            Call::SpecVersion => SPEC_VERSION,
            Call::ImplementationId => IMPLEMENTATION,
            Call::ImplementationVersion => IMPLEMENTATION_VERSION,
            Call::Probe { extension } => probed(extension),
            Call::VendorId => 0,
            Call::ArchitectureId => 0,
            Call::MachineId => 0,
        }
        ask {
            Call::HartStart { hart, address, opaque } => start(shape, hart, address, opaque),
            Call::HartStop => Ok(Request::Stop),
            Call::HartStatus { hart } => status(shape, hart),
            Call::HartSuspend { kind, address, opaque } => suspend(shape, kind, address, opaque),
            Call::SendIpi { mask, base } => send(shape, mask, base),
            Call::SystemReset { .. } => Ok(Request::Command),
            Call::SystemSuspend { .. } => Ok(Request::Command),
        }
    )
}
