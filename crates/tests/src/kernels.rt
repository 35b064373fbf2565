//! Kernels as `sbicheck` checks them: what several threads tell of one, and bytes that are none.

use crate::fixtures::same;
use elf_image::ElfFault;
use kernel_check::{CheckFault, CheckOptions, KernelFault, check_bytes, options_of};
use std::alloc::Global;
use std::process::Abort;
use std::thread::Threads;

/// Hart 0 starts harts 1 to 3. Each stores 6, 5, .. and 1 at 0x80000048, and stands at `j .` then.
static COUNTS: [u8; 80] = [
    0x13, 0x04, 0x10, 0x00, 0x13, 0x05, 0x04, 0x00, 0x97, 0x05, 0x00, 0x00, 0x93, 0x85, 0x45, 0x02,
    0xb7, 0x58, 0x48, 0x00, 0x9b, 0x88, 0xd8, 0x34, 0x13, 0x08, 0x00, 0x00, 0x73, 0x00, 0x00, 0x00,
    0x13, 0x04, 0x14, 0x00, 0x93, 0x02, 0x40, 0x00, 0xe3, 0x1e, 0x54, 0xfc, 0x97, 0x02, 0x00, 0x00,
    0x93, 0x82, 0xc2, 0x01, 0x13, 0x03, 0x60, 0x00, 0x23, 0xb0, 0x62, 0x00, 0x13, 0x03, 0xf3, 0xff,
    0xe3, 0x1c, 0x03, 0xfe, 0x6f, 0x00, 0x00, 0x00, 0x00, 0x00, 0x00, 0x00, 0x00, 0x00, 0x00, 0x00,
];

/// Every order; those up to a limit, and then those with no preemption, one and more; those with one; and every order of a kernel that
/// shows what is not expected.
static ASKED: [&str; 4] = [
    "sbicheck counts --harts 4 --look 0x80000048:8",
    "sbicheck counts --harts 4 --look 0x80000048:8 --boards 3000",
    "sbicheck counts --harts 4 --look 0x80000048:8 --preemptions 1",
    "sbicheck counts --harts 4 --expect 0x80000048=02",
];

/// What a command line asks for.
fn asked(rt: &impl Abort, alloc: Global, line: &'static str) -> CheckOptions {
    let words: Vec<&str> = line.split(' ').collect(alloc).expect(rt, "memory");
    options_of(alloc, &words).expect(rt, "the words are right")
}

/// What is told where so many threads search.
fn told<R: Abort + Threads + Sync>(
    rt: &R,
    alloc: Global,
    line: &'static str,
    jobs: u32,
) -> Vec<u8> {
    let mut out = Vec::new(alloc);
    let mut options = asked(rt, alloc, line);
    options.jobs = Some(jobs);
    let verdict = check_bytes(rt, alloc, &options, &COUNTS, &mut out);
    assert!(rt; verdict.is_ok());
    out
}

#[test]
fn several_threads_tell_the_same(rt: HostRuntime) {
    for &line in &ASKED {
        let alone = told(&rt, rt.alloc(), line, 1);
        same(&rt, told(&rt, rt.alloc(), line, 2) == alone, true);
        same(&rt, told(&rt, rt.alloc(), line, 4) == alone, true);
    }
}

/// Why these bytes are no kernel.
fn fault_of<R: Abort + Threads + Sync>(rt: &R, alloc: Global, bytes: &[u8]) -> Option<KernelFault> {
    let options = asked(rt, alloc, "sbicheck kernel");
    match check_bytes(rt, alloc, &options, bytes, &mut Vec::new(alloc)) {
        Err(CheckFault::Kernel(fault)) => Some(fault),
        _ => None,
    }
}

/// An ELF file of nothing but its mark, and more bytes than any RAM has.
#[test]
fn no_kernel_is_refused(rt: HostRuntime) {
    let cut_off = fault_of(&rt, rt.alloc(), b"\x7fELF");
    let is_cut_off = matches!(cut_off, Some(KernelFault::Elf(ElfFault::CutOff)));
    same(&rt, is_cut_off, true);
    let bytes = vec![in rt.alloc(); 0u8; 1_048_577].expect(&rt, "memory");
    let long = fault_of(&rt, rt.alloc(), bytes.as_slice());
    same(&rt, matches!(long, Some(KernelFault::TooLong)), true);
}
