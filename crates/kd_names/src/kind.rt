/// The type of an option's value.
#[derive(Clone, Copy)]
pub enum Kind {
    /// One IPv4 address.
    Address,
    /// One or more IPv4 addresses.
    Addresses,
    /// One or more pairs of IPv4 addresses.
    Pairs,
    /// A flag: one byte, 0 or 1.
    Flag,
    /// A 1-byte number.
    Byte,
    /// A 2-byte number.
    Short,
    /// A 4-byte number.
    Long,
    /// A 4-byte number in two's complement.
    Signed,
    /// One or more 2-byte numbers.
    Shorts,
    /// One or more option codes.
    Codes,
    /// A message type.
    MessageType,
    /// Text.
    Text,
    /// One domain name (RFC 1035 section 3.1, without compression).
    Name,
    /// One or more domain names.
    Names,
    /// One or more classless routes (RFC 3442).
    Routes,
    /// Bytes that have no simpler form.
    Bytes,
}
