use std::alloc::{AllocError, Global};

// The cookie and the options of the OFFER: its type, the server 192.0.2.1, a lease of 3600 seconds
// that is renewed after 1800 and rebound after 3150, the subnet mask, and the end option.
const OPTIONS: &[u8] = b"\x63\x82\x53\x63\x35\x01\x02\x36\x04\xc0\x00\x02\x01\
    \x33\x04\x00\x00\x0e\x10\x3a\x04\x00\x00\x07\x08\x3b\x04\x00\x00\x0c\x4e\
    \x01\x04\xff\xff\xff\x00\xff";

/// Returns all bytes of the OFFER of 192.0.2.10 to the client with hardware address
/// 10:0:0:0:0:1, whose transaction has number 1.
pub fn offer_bytes(alloc: Global) -> Result<Vec<u8>, AllocError> {
    let mut bytes = Vec::from_slice(alloc, &[2, 1, 6, 0, 0, 0, 0, 1])?;
    bytes.resize(16, 0)?;
    bytes.extend_from_slice(&[192, 0, 2, 10])?;
    bytes.resize(28, 0)?;
    bytes.extend_from_slice(&[10, 0, 0, 0, 0, 1])?;
    bytes.resize(236, 0)?;
    bytes.extend_from_slice(OPTIONS)?;
    bytes.resize(300, 0)?;
    Ok(bytes)
}
