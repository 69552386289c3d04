use std::alloc::{AllocError, Global};

/// The fields of a client's message that tests set.
#[derive(Clone, Copy)]
pub(crate) struct Fields<'a> {
    /// The last four bytes of its hardware address, which begins with 10 and 0.
    pub(crate) client: u32,
    /// Its options, after the cookie.
    pub(crate) options: &'a [u8],
    pub(crate) ciaddr: u32,
    pub(crate) giaddr: u32,
    pub(crate) flags: u16,
}

/// A message that comes through no relay, from a client without an address.
pub(crate) const DIRECT: Fields<'static> = Fields {
    client: 1,
    options: b"\x35\x01\x01\xff",
    ciaddr: 0,
    giaddr: 0,
    flags: 0,
};

/// Returns the datagram of a message.
pub(crate) fn bytes_of(alloc: Global, fields: &Fields<'_>) -> Result<Vec<u8>, AllocError> {
    let mut bytes = Vec::from_slice(alloc, &[1, 1, 6, 0, 0, 0, 0, 1, 0, 0])?;
    bytes.extend_from_slice(&fields.flags.to_be_bytes())?;
    bytes.extend_from_slice(&fields.ciaddr.to_be_bytes())?;
    bytes.resize(24, 0)?;
    bytes.extend_from_slice(&fields.giaddr.to_be_bytes())?;
    bytes.extend_from_slice(&[10, 0])?;
    bytes.extend_from_slice(&fields.client.to_be_bytes())?;
    bytes.resize(236, 0)?;
    bytes.extend_from_slice(&[99, 130, 83, 99])?;
    bytes.extend_from_slice(fields.options)?;
    Ok(bytes)
}
