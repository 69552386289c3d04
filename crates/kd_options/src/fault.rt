ghost use Rattle.std.specs.Prelude.{◌≡◌};
ghost use Rattle.kd_options.specs.Faults.{read_fault_number, write_fault_number, address_option_code};

use crate::codes::{OPTION_REQUESTED_ADDRESS, OPTION_SERVER_IDENTIFIER};
use kd_wire::WireFault;
use std::alloc::AllocError;
use std::fmt;
use thiserror::Error;

/// An option that holds one IPv4 address (RFC 2132 sections 9.1 and 9.7).
#[derive(Clone, Copy, PartialEq, Eq)]
pub enum AddressOption {
    /// Option 50, the address that the client asks for.
    RequestedAddress,
    /// Option 54, the server that the client addresses.
    ServerIdentifier,
}

impl fmt::Debug for AddressOption {
    fn fmt<W: fmt::Write>(&self, f: &mut fmt::Formatter<W>) -> fmt::Result {
        fmt::Display::fmt(self, f)
    }
}

impl AddressOption {
    /// Returns the option's code.
    pub fn code(self) -> u8
        ensures { result ≡ address_option_code self }
    {
        match self {
            AddressOption::RequestedAddress => OPTION_REQUESTED_ADDRESS,
            AddressOption::ServerIdentifier => OPTION_SERVER_IDENTIFIER,
        }
    }
}

impl fmt::Display for AddressOption {
    ghost use Rattle.std.specs.Prelude.{Some};
    ghost use Rattle.std.specs.Fmt.{decimal};
    ghost use Rattle.kd_options.specs.Faults.{address_option_code};

    ghost output = { λ option. Some (decimal (address_option_code option)) };

    fn fmt<W: fmt::Write>(&self, f: &mut fmt::Formatter<W>) -> fmt::Result {
        let code = self.code();
        write!(f, "{code}")
    }
}

/// Why a datagram cannot be read as a message.
#[derive(Clone, Copy, PartialEq, Eq, Error)]
pub enum ReadFault {
    /// The bytes do not have the header of a DHCP message.
    #[error("{0}")]
    Header(WireFault),
    /// An option has no length byte, or its length is more than the bytes that follow it. The
    /// number is the offset of its code byte in the datagram.
    #[error("Cut {0}")]
    Cut(usize),
    /// Option 53, the message type, is absent (RFC 2132 section 9.6).
    #[error("NoType")]
    NoType,
    /// Option 53 is not one byte from 1 to 8.
    #[error("BadType")]
    BadType,
    /// Option 50 or 54 does not have the 4 bytes of an address.
    #[error("BadOption {0}")]
    BadOption(AddressOption),
    /// There is no memory for the options.
    #[error("Memory")]
    Memory,
}

impl fmt::Debug for ReadFault {
    fn fmt<W: fmt::Write>(&self, f: &mut fmt::Formatter<W>) -> fmt::Result {
        fmt::Display::fmt(self, f)
    }
}

impl ReadFault {
    /// Returns the fault's number: 1 to 9, or 91 if out of memory.
    pub fn number(self) -> u8
        ensures { result ≡ read_fault_number self }
    {
        match self {
            ReadFault::Header(fault) => fault.number(),
            ReadFault::Cut(_) => 5,
            ReadFault::NoType => 6,
            ReadFault::BadType => 7,
            ReadFault::BadOption(AddressOption::RequestedAddress) => 8,
            ReadFault::BadOption(AddressOption::ServerIdentifier) => 9,
            ReadFault::Memory => 91,
        }
    }
}

impl From<WireFault> for ReadFault {
    ghost use Rattle.kd_options.specs.declared.fault.ReadFault.TheVariants.{Header};

    ghost from_gives = { λ fault e. e ≡ Header fault };

    fn from(fault: WireFault) -> ReadFault {
        ReadFault::Header(fault)
    }
}

/// Why a reply cannot be written.
#[derive(Clone, Copy, PartialEq, Eq, Error)]
pub enum WriteFault {
    /// The obligatory options do not fit in the room.
    #[error("TooLong")]
    TooLong,
    /// There is no memory for the reply's bytes.
    #[error("Memory")]
    Memory,
}

impl fmt::Debug for WriteFault {
    fn fmt<W: fmt::Write>(&self, f: &mut fmt::Formatter<W>) -> fmt::Result {
        fmt::Display::fmt(self, f)
    }
}

impl WriteFault {
    /// Returns the fault's number: 10, or 91 if out of memory.
    pub fn number(self) -> u8
        ensures { result ≡ write_fault_number self }
    {
        match self {
            WriteFault::TooLong => 10,
            WriteFault::Memory => 91,
        }
    }
}

impl From<AllocError> for WriteFault {
    ghost use Rattle.kd_options.specs.declared.fault.WriteFault.TheVariants.{Memory};

    ghost from_gives = { λ _ e. e ≡ Memory };

    fn from(_error: AllocError) -> WriteFault {
        WriteFault::Memory
    }
}

// Why the options of a datagram's areas cannot be read.
#[derive(Clone, Copy)]
pub(crate) enum AreaFault {
    Cut(usize),
    Memory,
}

impl From<AllocError> for AreaFault {
    ghost use Rattle.kd_options.specs.declared.fault.AreaFault.TheVariants.{Memory};

    ghost from_gives = { λ _ e. e ≡ Memory };

    fn from(_error: AllocError) -> AreaFault {
        AreaFault::Memory
    }
}

impl From<AreaFault> for ReadFault {
    ghost use Rattle.kd_options.specs.Faults.{read_fault_of};

    ghost from_gives = { λ fault e. e ≡ read_fault_of fault };

    fn from(fault: AreaFault) -> ReadFault {
        match fault {
            AreaFault::Cut(at) => ReadFault::Cut(at),
            AreaFault::Memory => ReadFault::Memory,
        }
    }
}
