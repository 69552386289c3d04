ghost use Rattle.std.specs.Prelude.{◌≡◌, ◌↔◌, IsTrue};
ghost use Rattle.kd_log.specs.Printed.{IsAskedFor};

use kd_options::Message;
use kd_wire::Bytes;

/// Selects the replies that are printed: those that match all that is set here.
#[derive(Drop)]
pub struct Filter {
    /// Exactly this hardware address: the first `hlen` bytes of `chaddr`, at most 16.
    pub mac: Option<Bytes>,
    /// This assigned address, `yiaddr`, as a number in host order.
    pub address: Option<u32>,
}

impl Filter {
    // Reports whether a message is selected.
    pub(crate) fn is_for(&self, message: &Message<'_>) -> bool
        ensures { IsTrue result ↔ IsAskedFor self.now message.now }
    {
        let has_mac = match &self.mac {
            Some(mac) => message.mac() == mac.as_slice(),
            None => true,
        };
        let has_address = match self.address {
            Some(address) => message.header().yiaddr == address,
            None => true,
        };
        has_mac && has_address
    }
}
