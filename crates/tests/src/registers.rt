//! Which call the registers ask for, and what an answer makes of them (SBI specification 2.0, chapter 3).
use crate::fixtures::same;
use board_model::HartId;
use hart::Hart;
use rv_decode::Reg;
use sbi_abi::{Call, SbiError, SbiRet, put};
use std::process::Abort;

// What a0, a1 and a2 hold: numbers of more than 32 bits.
const A0: u64 = 0x7_8000_0001;

const A1: u64 = 0x2_0000_0003;

const A2: u64 = 0x9_0000_0009;

/// A hart at 0x80001000 that asks for the call of these numbers.
fn asking(rt: &impl Abort, extension: u64, function: u64) -> Hart {
    let id = HartId::new(1).expect(rt, "hart 1");
    let mut hart = Hart::fresh(id, 0x8000_1000, A1);
    hart.put(Reg::new(10), A0);
    hart.put(Reg::new(12), A2);
    hart.put(Reg::new(16), function);
    hart.put(Reg::new(17), extension);
    hart
}

/// Which call the registers ask for, by the numbers of the extension and of the function in it.
static CALLS: [(u64, u64, Call); 23] = [
    (0x10, 0, Call::SpecVersion),
    (0x10, 1, Call::ImplementationId),
    (0x10, 2, Call::ImplementationVersion),
    (0x10, 3, Call::Probe { extension: A0 }),
    (0x10, 4, Call::VendorId),
    (0x10, 5, Call::ArchitectureId),
    (0x10, 6, Call::MachineId),
    (0x10, 7, Call::Unknown),
    (0x10, 0x1_0000_0000, Call::Unknown),
    (
        0x48534d,
        0,
        Call::HartStart {
            hart: A0,
            address: A1,
            opaque: A2,
        },
    ),
    (0x48534d, 1, Call::HartStop),
    (0x48534d, 2, Call::HartStatus { hart: A0 }),
    (
        0x48534d,
        3,
        Call::HartSuspend {
            kind: 0x8000_0001,
            address: A1,
            opaque: A2,
        },
    ),
    (0x48534d, 4, Call::Unknown),
    (0x735049, 0, Call::SendIpi { mask: A0, base: A1 }),
    (0x735049, 1, Call::Unknown),
    (
        0x53525354,
        0,
        Call::SystemReset {
            kind: 0x8000_0001,
            reason: 3,
        },
    ),
    (0x53525354, 1, Call::Unknown),
    (
        0x53555350,
        0,
        Call::SystemSuspend {
            kind: 0x8000_0001,
            address: A1,
            opaque: A2,
        },
    ),
    (0x53555350, 1, Call::Unknown),
    // other extensions, and one of these numbers plus 2^32
    (0, 0, Call::Unknown),
    (0x1_0000_0010, 0, Call::Unknown),
    (u64::MAX, 0, Call::Unknown),
];

#[test]
fn calls_have_the_numbers_of_the_standard(rt: HostRuntime) {
    for &(extension, function, call) in &CALLS {
        same(&rt, Call::of(&asking(&rt, extension, function)), call);
    }
}

/// a0, a1, a2 and the pc once the call was answered.
fn answered(rt: &impl Abort, answer: SbiRet) -> (u64, u64, u64, u64) {
    let mut hart = asking(rt, 0x10, 0);
    put(&mut hart, answer);
    (
        hart.reg(Reg::new(10)),
        hart.reg(Reg::new(11)),
        hart.reg(Reg::new(12)),
        hart.pc(),
    )
}

/// Answers, each with what a0 and a1 hold then: an error is negative in a0, and its value is 0.
static ANSWERS: [(SbiRet, i64, u64); 9] = [
    (Ok(7), 0, 7),
    (Err(SbiError::Failed), -1, 0),
    (Err(SbiError::NotSupported), -2, 0),
    (Err(SbiError::InvalidParam), -3, 0),
    (Err(SbiError::Denied), -4, 0),
    (Err(SbiError::InvalidAddress), -5, 0),
    (Err(SbiError::AlreadyAvailable), -6, 0),
    (Err(SbiError::AlreadyStarted), -7, 0),
    (Err(SbiError::AlreadyStopped), -8, 0),
];

#[test]
fn an_answer_goes_to_a0_and_a1(rt: HostRuntime) {
    for &(answer, a0, a1) in &ANSWERS {
        let found = answered(&rt, answer);
        same(&rt, found, (a0.cast_unsigned(), a1, A2, 0x8000_1004));
    }
}
