//! Addresses of memory, the interrupt controller and the image. `specs/MemoryMap.antt` has them under the same names.

/// Where RAM begins: the word there names the running task.
pub const MEMORY_BASE: u32 = 0x8000_0000;

/// The bytes of RAM.
pub const MEMORY_BYTES: usize = 0x20_0000;

/// The address behind RAM.
pub const MEMORY_END: u32 = 0x8020_0000;

/// Where the parts of an image begin, behind that word.
pub const WORDS_BASE: u32 = 0x8000_0004;

/// The bytes of a word.
pub const WORD: u32 = 4;

/// Where the vector words stand, one for each line of the controller.
pub const VECTORS_BASE: u32 = 0x8000_0400;

/// Where boot stands, behind the vector words.
pub const BOOT_BASE: u32 = 0x8000_0480;

/// Where the controller's bytes begin: for each line a pending byte, then for each an enable byte, then a level byte.
pub const CONTROLLER_BASE: u32 = 0x1000_0000;

/// The lines of the controller.
pub const LINE_COUNT: usize = 32;

/// Where the enable bytes begin, behind the controller's address.
pub const ENABLED_OFFSET: usize = 32;

/// Where the level bytes begin, behind the controller's address.
pub const LEVELS_OFFSET: usize = 64;

/// The bytes of the controller.
pub const CONTROLLER_BYTES: u32 = 96;
