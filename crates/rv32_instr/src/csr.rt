//! The numbers of the CSRs: three of the RISC-V privileged manual, and two of the interrupt controller in its range for
//! machine-level CSRs of an implementation's own.

pub const MSTATUS: u16 = 0x300;

pub const MSCRATCH: u16 = 0x340;

pub const MEPC: u16 = 0x341;
/// The level at which the processor runs.
pub const ILEVEL: u16 = 0x7C0;
/// The level to which `mret` goes back.
pub const PLEVEL: u16 = 0x7C1;

/// The bits of mstatus that there are.
pub const MIE: u8 = 8;

pub const MPIE: i32 = 128;
