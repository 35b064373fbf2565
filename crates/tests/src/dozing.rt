//! Boards that sleep in their RAM, on threads (docs/THREADS.md, "A doze").

use crate::boards::{BoardTrial, ENDLESS, driven};
use crate::fixtures::{has_come, same};
use board_model::{HartId, RAM_BASE};
use hart_threads::{Gate, Why};
use std::sync::atomic::{AtomicBool, AtomicU64, Ordering};
use std::time::Clock;

/// How many turns go by before the board is woken.
const IDLE: u64 = 100;

/// How many turns more begin once it was woken.
const MORE: u64 = 5;

/// It lets turns begin until the board was woken, and then so many more.
#[derive(Drop)]
pub struct UntilWoken {
    made: AtomicU64,
    woken: AtomicBool,
    more: AtomicU64,
}

impl UntilWoken {
    fn new() -> UntilWoken {
        UntilWoken {
            made: AtomicU64::new(0),
            woken: AtomicBool::new(false),
            more: AtomicU64::new(0),
        }
    }

    /// Waits until those turns were made.
    pub fn wait(&self, clock: &impl Clock) {
        let _in_time = has_come(clock, &self.made, IDLE);
    }

    /// The board was woken.
    pub fn tell(&self) {
        self.woken.store(true, Ordering::SeqCst);
    }
}

impl Gate for UntilWoken {
    ghost answers = { λ gate hart turn answer. Unit {0} };

    ghost hears = { λ gate hart turn. Unit {0} };

    fn before(&self, _hart: HartId, _turn: u64) -> bool {
        !self.woken.load(Ordering::SeqCst) || self.more.fetch_add(1, Ordering::SeqCst) < MORE
    }

    fn after(&self, _hart: HartId, _turn: u64) {
        self.made.fetch_add(1, Ordering::SeqCst);
    }
}

/// A suspend to RAM by `system_suspend`, to go on past its ECALL with 9: AUIPC x11, 0; ADDI x11, x11, 32; ADDI x10, x0, 0;
/// ADDI x12, x0, 9; ADDI x16, x0, 0; LUI x17, 0x53555; ADDI x17, x17, 0x350; ECALL, the eighth instruction, and a jump to
/// itself.
const SLEEPER: [u8; 36] = [
    0x97, 0x05, 0x00, 0x00, 0x93, 0x85, 0x05, 0x02, 0x13, 0x05, 0x00, 0x00, 0x13, 0x06, 0x90, 0x00,
    0x13, 0x08, 0x00, 0x00, 0xb7, 0x58, 0x55, 0x53, 0x93, 0x88, 0x08, 0x35, 0x73, 0x00, 0x00, 0x00,
    0x6f, 0x00, 0x00, 0x00,
];

/// Where the jump stands.
const SITE: u64 = RAM_BASE + 32;

/// The hart goes on at its address, with its number in a0 and its opaque value in a1; its turns before were idle.
#[test]
fn a_board_that_sleeps_in_its_ram_is_woken_by_its_console(rt: HostRuntime) {
    let gate = UntilWoken::new();
    let trial = BoardTrial {
        payload: &SLEEPER,
        input: b"wake\nwake\nslot 2\nquit\n",
        until: Some(&gate),
        ..BoardTrial::of(ENDLESS)
    };
    let (end, said) = driven(&rt, rt.alloc(), &gate, trial);
    let told = b"wake ok\nwake refused 18\nslot ok 1\nquit\n";
    same(&rt, said.as_slice(), told.as_slice());
    same(&rt, (end.regs, end.pc), ((0, 9), SITE));
    same(&rt, end.why, Why::Gate);
}
