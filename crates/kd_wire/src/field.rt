ghost use Rattle.std.specs.Prelude.{◌≡◌};
ghost use Rattle.kd_wire.specs.Field.{field_number};

/// A message field that a class test can name (RFC 2131 section 2).
#[derive(Clone, Copy, PartialEq, Eq)]
pub enum Field {
    /// `mac`: the hardware address, the first `hlen` bytes of `chaddr`, at most 16.
    Mac,
    /// `hlen`: the length that the client states for its hardware address.
    Hlen,
    /// `htype`: the type of hardware address.
    Htype,
    /// `ciaddr`: the address that the client says it has.
    Ciaddr,
    /// `giaddr`: the address of the relay that the message came through.
    Giaddr,
    /// `yiaddr`: the address that the server assigns.
    Yiaddr,
    /// `siaddr`: the next server to use in booting.
    Siaddr,
    /// `msgtype`: the message type, option 53 (RFC 2132 section 9.6).
    MessageType,
    /// `transid`: the transaction ID, `xid`.
    Transaction,
    /// `pkt.len`: the number of bytes of the datagram.
    Length,
}

impl Field {
    /// Returns the field's number in token files, 0 to 9.
    pub fn number(self) -> u8
        ensures { result ≡ field_number self }
    {
        match self {
            Field::Mac => 0,
            Field::Hlen => 1,
            Field::Htype => 2,
            Field::Ciaddr => 3,
            Field::Giaddr => 4,
            Field::Yiaddr => 5,
            Field::Siaddr => 6,
            Field::MessageType => 7,
            Field::Transaction => 8,
            Field::Length => 9,
        }
    }
}
