/// The length of a region, in bytes.
pub const REGION_SIZE: usize = 262_144;

/// Where the first record's gate stands: behind the generation and eight bytes that are zero.
pub const HEADER: usize = 16;

/// The length of the generation, at the beginning of the header.
pub const GENERATION_SIZE: usize = 8;

/// The byte of a gate behind which a record stands.
pub const OPEN: u8 = 0xa5;

/// The byte that an append leaves in the next gate, and a wipe in the first one. Any byte but an open one closes a gate.
pub const CLOSED: u8 = 0x00;
