//! The control and status registers of this profile, by their numbers.
//!
//! They are the supervisor's, named as in the RISC-V Privileged ISA 20190608, 2.2.

pub const SSTATUS: u32 = 0x100;

pub const SIE: u32 = 0x104;

pub const STVEC: u32 = 0x105;

pub const SSCRATCH: u32 = 0x140;

pub const SEPC: u32 = 0x141;

pub const SCAUSE: u32 = 0x142;

pub const STVAL: u32 = 0x143;

pub const SIP: u32 = 0x144;

pub const SATP: u32 = 0x180;
