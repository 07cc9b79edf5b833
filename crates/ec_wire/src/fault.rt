// Why bytes are no message.
use ec_codes::CodeFault;
use thiserror::Error;

/// Why bytes are no message.
#[derive(Clone, Copy, Debug, Drop, PartialEq, Eq, Error)]
pub enum WireFault {
    /// The bytes end too early: the place where the first missing byte would stand.
    #[error("bytes missing at {0}")]
    Short(usize),
    /// No kind has this byte.
    #[error("unknown kind {0}")]
    Kind(u8),
    /// The place of the first byte of the first field that is out of its range.
    #[error("bad field at {0}")]
    Field(usize),
    /// The place of the first byte too many.
    #[error("bytes left over at {0}")]
    Trailing(usize),
    #[error("out of memory")]
    NoMemory,
}

impl From<CodeFault> for WireFault {
    ghost use Rattle.std.specs.Prelude.{◌≡◌};
    ghost use Rattle.ec_wire.specs.Codes.{wire_fault};

    ghost from_gives = { λ f e. e ≡ wire_fault f };

    fn from(fault: CodeFault) -> Self {
        match fault {
            CodeFault::Short(place) => WireFault::Short(place),
            CodeFault::Field(place) => WireFault::Field(place),
            CodeFault::NoMemory => WireFault::NoMemory,
        }
    }
}
