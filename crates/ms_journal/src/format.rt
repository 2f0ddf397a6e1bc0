//! The numbers of a journal's format.

/// How a head begins: `HMSJ`, and the version 1.
pub const SIGNATURE: [u8; 8] = [0x48, 0x4d, 0x53, 0x4a, 0, 0, 0, 1];

/// Where the store's id stands in a head, behind the signature and the version.
pub const ID_AT: usize = 8;

/// The generation that a head tells, behind the id.
pub const GENERATION: u64 = 1;

/// Where the base event number stands in a head.
pub const BASE_AT: usize = 32;

/// What a base event number is below.
pub const BASE_END: u64 = 0x8000_0000_0000_0000;

/// How many bytes a head has. The first gate stands behind it.
pub const HEAD_LENGTH: usize = 40;

/// The byte of an open gate. A gate is shut by any other.
pub const GATE_OPEN: u8 = 1;

/// The byte that gates are shut with.
pub const GATE_SHUT: u8 = 0;

/// How many bytes an entry's length has, behind its gate.
pub const LENGTH_BYTES: usize = 8;

/// How many bytes an entry has besides its payload: its gate and its length.
pub const ENTRY_BYTES: usize = 9;
