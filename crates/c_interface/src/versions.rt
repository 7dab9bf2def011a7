//! The version of the libraries for C.

/// The version, 0.1.0: a byte for each number.
pub const VERSION: u32 = 0x100;
