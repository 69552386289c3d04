ghost use Rattle.std.specs.Prelude.{◌≡◌, ◌+◌, ◌^◌, ◌<◌, ◌≤◌, IsSome, ◌∷◌, [], nat_eq, option_copied, option_map, slice_get, IfOk, IfErr, IsSomeAnd, MatchResult, Some};
ghost use Rattle.std.specs.Map.{lookup};
ghost use Rattle.kd_options.specs.Joined.{value_of};
ghost use Rattle.kd_options.specs.Joining.{entries_of};
ghost use Rattle.kd_options.specs.Kind.{type_number};
ghost use Rattle.kd_options.specs.Message.{IsMessage, Seen, Reads, IsFirstFault, mac_of};
ghost use Rattle.kd_options.specs.Options.{IsType, option_fault, absent_or_address};
ghost use Rattle.kd_options.specs.Relay.{IsRelayList, firsts};
ghost use Rattle.kd_options.specs.RelayWalk.{relay_list};
ghost use Rattle.kd_options.specs.declared.fault.ReadFault.TheVariants.{Memory};

use crate::areas::options_in;
use crate::codes::{
    OPTION_MESSAGE_TYPE, OPTION_RELAY_INFORMATION, OPTION_REQUESTED_ADDRESS,
    OPTION_SERVER_IDENTIFIER,
};
use crate::fault::{AddressOption, ReadFault};
use crate::joining::{Value, entry_in, value_in};
use crate::kind::{MessageType, type_of_number};
use crate::relay::{sub_option, sub_option_at};
use indexmap::IndexMap;
use kd_wire::Header;
use std::alloc::Global;
use std::marker::Model;

/// A readable DHCP message (RFC 2131 section 2). It borrows its datagram: an option of one piece is
/// a slice of it, and an option of several pieces is a joined copy (RFC 3396).
#[derive(Drop)]
pub struct Message<'a> {
    head: Header,
    size: usize,
    fields: IndexMap<u8, Value<'a>>,
}

impl<'a> Model for Message<'a> {
    ghost use Rattle.kd_options.specs.Joining.{entries_of};
    ghost use Rattle.kd_options.specs.Message.{IsMessage, Seen};

    ghost Value = { Seen };

    ghost view = { λ m. record { header = m.head; len = m.size; options = entries_of m.fields.entries } };

    ghost invariant = { λ m. IsMessage (record
        { header = m.head; len = m.size; options = entries_of m.fields.entries }) };
}

impl<'a> Message<'a> {
    /// Reads a datagram as a message. Takes memory for the table of options and for options that
    /// are joined.
    ///
    /// # Errors
    ///
    /// The first of these that applies: a header's fault, `Cut` in the first area that is cut,
    /// `NoType`, `BadType`, `BadOption` of 50 and `BadOption` of 54. Once the header is read,
    /// `Memory` may come in place of any other result.
    pub fn read(alloc: Global, bytes: &'a [u8]) -> Result<Message<'a>, ReadFault>
        ensures found { IfOk result (λ m. Reads bytes.now m) }
        ensures fault { IfErr result (λ fault. IsFirstFault fault bytes.now) }
        ensures only { (m : Seen) → Reads bytes.now m
            → MatchResult result (λ found. found ≡ m) (λ fault. fault ≡ Memory) }
    {
        let head = Header::read(bytes)?;
        let fields = options_in(alloc, bytes)?;
        match fault_in(&fields) {
            Some(fault) => Err(fault),
            None => Ok(Message {
                head,
                size: bytes.len(),
                fields,
            }),
        }
    }

    /// Returns the header's fields.
    pub fn header(&self) -> &Header
        ensures { result.now ≡ self.now.header }
    {
        &self.head
    }

    /// Returns the number of bytes of the datagram, 240 to 4,096.
    pub fn len(&self) -> usize
        ensures value { result ≡ self.now.len }
        ensures room { result ≤ 4096 }
        ensures message { IsMessage self.now }
    {
        self.size
    }

    /// Returns the message type (RFC 2132 section 9.6).
    pub fn kind(&self) -> MessageType
        ensures { value_of 53 self.now.options ≡ Some (type_number result ∷ []) }
    {
        type_in(&self.fields)
    }

    /// Returns the hardware address: the first `hlen` bytes of `chaddr`, at most 16.
    pub fn mac(&self) -> &[u8]
        ensures { result.now ≡ mac_of self.now.header }
    {
        let header = &self.head;
        &header.chaddr[..usize::from(header.hlen).min(16)]
    }

    /// Returns the joined value of an option, which may be empty, or `None` if the option is
    /// absent.
    pub fn option(&self, code: u8) -> Option<&[u8]>
        ensures { option_copied result ≡ value_of code self.now.options }
    {
        value_in(&self.fields, code)
    }

    /// Returns the option at an index, in order of first appearance, if there is one.
    pub fn option_at(&self, index: usize) -> Option<(u8, &[u8])>
        ensures value { option_map (λ p. (p.0, p.1.now)) result ≡ slice_get self.now.options index }
        ensures within { IsSome result → index + 1 < 2 ^ 64 }
    {
        entry_in(&self.fields, index)
    }

    /// Returns the first sub-option with this code in the relay information, option 82 (RFC 3046
    /// section 2).
    pub fn relay(&self, code: u8) -> Option<&[u8]>
        ensures list { IsRelayList (value_of 82 self.now.options) (relay_list self.now.options) }
        ensures value { option_copied result ≡ lookup (nat_eq code) (relay_list self.now.options) }
    {
        match self.option(OPTION_RELAY_INFORMATION) {
            Some(value) => sub_option(value, code),
            None => None,
        }
    }

    /// Returns the sub-option at an index of the relay information. Each code counts once, in order
    /// of first appearance.
    pub fn relay_at(&self, index: usize) -> Option<(u8, &[u8])>
        ensures list { IsRelayList (value_of 82 self.now.options) (relay_list self.now.options) }
        ensures value { option_map (λ p. (p.0, p.1.now)) result
            ≡ slice_get (firsts (relay_list self.now.options)) index }
        ensures within { IsSome result → index < 256 }
    {
        match self.option(OPTION_RELAY_INFORMATION) {
            Some(value) => sub_option_at(value, index),
            None => None,
        }
    }
}

// Returns the message type of readable options.
#[tactic(auto, using(crate::proofs::Rules::type_is))]
fn type_in(fields: &IndexMap<u8, Value<'_>>) -> MessageType
    requires { IsSomeAnd (value_of 53 (entries_of fields.now.entries)) IsType }
    ensures { value_of 53 (entries_of fields.now.entries) ≡ Some (type_number result ∷ []) }
{
    match value_in(fields, OPTION_MESSAGE_TYPE) {
        Some(value) => type_of_number(value[0]),
        None => unreachable!(),
    }
}

// Returns the first fault of the options.
#[tactic(auto, unfolding(crate::specs::Options::option_fault))]
fn fault_in(fields: &IndexMap<u8, Value<'_>>) -> Option<ReadFault>
    ensures { result ≡ option_fault (entries_of fields.now.entries) }
{
    match value_in(fields, OPTION_MESSAGE_TYPE) {
        None => return Some(ReadFault::NoType),
        Some([1..=8]) => {}
        Some(_) => return Some(ReadFault::BadType),
    }
    if !may_be_address(value_in(fields, OPTION_REQUESTED_ADDRESS)) {
        return Some(ReadFault::BadOption(AddressOption::RequestedAddress));
    }
    if !may_be_address(value_in(fields, OPTION_SERVER_IDENTIFIER)) {
        return Some(ReadFault::BadOption(AddressOption::ServerIdentifier));
    }
    None
}

// Whether the value is absent or has the four bytes of an address.
fn may_be_address(value: Option<&[u8]>) -> bool
    ensures { result ≡ absent_or_address (option_copied value.entry) }
{
    match value {
        Some(value) => value.len() == 4,
        None => true,
    }
}
