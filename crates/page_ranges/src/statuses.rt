//! The statuses that services return.
ghost use Rattle.std.specs.Prelude.{◌≡◌, Some};
ghost use Rattle.page_ranges.specs.Statuses.{name_of, status_number};

use std::fmt;

/// The bit that an error's number has.
const ERROR_BIT: u64 = 1 << 63;

/// A status of the services (EFI_STATUS), as far as these services return it.
#[derive(Clone, Copy, Debug, PartialEq, Eq)]
pub enum Status {
    Success,
    InvalidParameter,
    Unsupported,
    BufferTooSmall,
    DeviceError,
    OutOfResources,
    NotFound,
    AccessDenied,
    AlreadyStarted,
}

impl Status {
    /// The standard's name, without `EFI_`.
    pub fn name(self) -> &'static str
        ensures { result.now ≡ name_of self }
    {
        match self {
            Status::Success => "SUCCESS",
            Status::InvalidParameter => "INVALID_PARAMETER",
            Status::Unsupported => "UNSUPPORTED",
            Status::BufferTooSmall => "BUFFER_TOO_SMALL",
            Status::DeviceError => "DEVICE_ERROR",
            Status::OutOfResources => "OUT_OF_RESOURCES",
            Status::NotFound => "NOT_FOUND",
            Status::AccessDenied => "ACCESS_DENIED",
            Status::AlreadyStarted => "ALREADY_STARTED",
        }
    }

    /// The standard's number (EFI_STATUS, Appendix D), as a 64-bit processor has it: 0, or the top bit
    /// and the error's own number.
    pub fn number(self) -> u64
        ensures { result ≡ status_number self }
    {
        match self {
            Status::Success => 0,
            Status::InvalidParameter => ERROR_BIT | 2,
            Status::Unsupported => ERROR_BIT | 3,
            Status::BufferTooSmall => ERROR_BIT | 5,
            Status::DeviceError => ERROR_BIT | 7,
            Status::OutOfResources => ERROR_BIT | 9,
            Status::NotFound => ERROR_BIT | 14,
            Status::AccessDenied => ERROR_BIT | 15,
            Status::AlreadyStarted => ERROR_BIT | 20,
        }
    }
}

impl fmt::Display for Status {
    ghost output = { λ s. Some (name_of s) };

    fn fmt<W: fmt::Write>(&self, f: &mut fmt::Formatter<W>) -> fmt::Result {
        f.write_str(self.name())
    }
}
