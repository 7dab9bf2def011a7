//! How many bytes an item of a list takes in a buffer.

/// The bytes of a handle.
pub const HANDLE_SIZE: usize = 8;

/// The bytes of an open item (EFI_OPEN_PROTOCOL_INFORMATION_ENTRY).
pub const ENTRY_SIZE: usize = 24;
