// What the replay and the independent program have to agree on. Written by tools/feeds from rust/plain/src/feed.rs: change it there.

// Slots and bytes that an area may have.
pub const MOST_SETTINGS: usize = 64;

pub const MOST_TABLES: usize = 1280;

pub const MOST_IMAGE: usize = 786432;

pub const MOST_SCRATCH: usize = 2112;

pub const MOST_BYTES: usize = 16393;

// What every byte and slot that a call may write holds before it.
pub const BYTE_BEFORE: u8 = 165;

pub const SLOT_BEFORE: i32 = -123456789;

// The hash's prime and its base.
pub const MODULUS: u64 = 1099511627689;

pub const BASE: u64 = 8388593;
