//! Codes of the options that the server reads or writes itself (RFC 2132, RFC 3046).

/// The address that a client asks for (RFC 2132 section 9.1).
pub const OPTION_REQUESTED_ADDRESS: u8 = 50;

/// A lease's lifetime in seconds (RFC 2132 section 9.2).
pub const OPTION_LEASE_TIME: u8 = 51;

/// Which of the fields `file` and `sname` hold options (RFC 2132 section 9.3).
pub const OPTION_OVERLOAD: u8 = 52;

/// The type of a message (RFC 2132 section 9.6).
pub const OPTION_MESSAGE_TYPE: u8 = 53;

/// The server's address in replies, and which server a client has chosen (RFC 2132 section 9.7).
pub const OPTION_SERVER_IDENTIFIER: u8 = 54;

/// The codes of the options that a client asks for (RFC 2132 section 9.8).
pub const OPTION_PARAMETER_REQUEST_LIST: u8 = 55;

/// The longest message that a client takes, in bytes (RFC 2132 section 9.10).
pub const OPTION_MAXIMUM_MESSAGE_SIZE: u8 = 57;

/// The time to the first renewal, T1, in seconds (RFC 2132 section 9.11).
pub const OPTION_RENEWAL_TIME: u8 = 58;

/// The time to rebinding, T2, in seconds (RFC 2132 section 9.12).
pub const OPTION_REBINDING_TIME: u8 = 59;

/// The client's vendor class (RFC 2132 section 9.13).
pub const OPTION_VENDOR_CLASS: u8 = 60;

/// The client identifier (RFC 2132 section 9.14).
pub const OPTION_CLIENT_IDENTIFIER: u8 = 61;

/// What relay agents say of a client (RFC 3046 section 2.0).
pub const OPTION_RELAY_INFORMATION: u8 = 82;
