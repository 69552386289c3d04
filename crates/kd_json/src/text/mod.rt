//! Texts of values: addresses, prefixes, ranges and hexadecimal digits.

pub(crate) mod address;
pub(crate) mod prefix;
pub(crate) mod range;
