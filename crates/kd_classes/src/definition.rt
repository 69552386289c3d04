use crate::boot::Boot;
use crate::lifetime::Lifetime;
use crate::option_list::OptionList;
use kd_token::Verified;
use kd_wire::Bytes;

/// A client class definition.
#[derive(Drop)]
pub struct ClassDef {
    /// The class's name.
    pub name: Bytes,
    /// The program of its test; without a test no message is in the class.
    pub test: Option<Verified>,
    /// The options that the class gives to the replies to its members.
    pub options: OptionList,
    /// What the class gives to the boot fields of these replies.
    pub boot: Boot,
    /// How long the leases of its members last, if it says so.
    pub lifetime: Option<Lifetime>,
}
