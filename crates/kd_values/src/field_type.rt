/// The type of a field of an option that a configuration defines (Kea's `option-def`).
#[derive(Clone, Copy)]
pub enum FieldType {
    /// A flag: one byte, 0 or 1 (`boolean`).
    Flag,
    /// A 1-byte number.
    Uint8,
    /// A 2-byte number.
    Uint16,
    /// A 4-byte number.
    Uint32,
    /// A 1-byte number in two's complement.
    Int8,
    /// A 2-byte number in two's complement.
    Int16,
    /// A 4-byte number in two's complement.
    Int32,
    /// One IPv4 address (`ipv4-address`).
    Address,
    /// Text of one byte or more (`string`).
    Text,
    /// One domain name (`fqdn`; RFC 1035 section 3.1, without compression).
    Name,
    /// One or more bytes in hexadecimal (`binary`).
    Bytes,
    /// Text of 1 to 255 bytes after a byte with its length (`tuple`).
    Tuple,
}
