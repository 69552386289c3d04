ghost use Rattle.std.specs.Prelude.{◌≡◌, ℕ, List, Option};
ghost use Rattle.kd_wire.specs.Area.{Piece};
ghost use Rattle.kd_wire.specs.declared.header.Header.{Header};
ghost use Rattle.kd_options.specs.Joined.{value_of};
ghost use Rattle.kd_options.specs.Laws.{IsReply, read_back};
ghost use Rattle.kd_options.specs.Laws.{MessagesHaveSizes};
ghost use Rattle.kd_options.specs.Message.{Reads};
ghost use Rattle.kd_options.specs.Relay.{IsRelayList};
ghost use Rattle.kd_options.specs.RelayWalk.{relay_list};
ghost use Rattle.kd_options.specs.Reply.{ItemsFit, reply_text};
ghost use Rattle.kd_options.specs.declared.item.Item.{Item};

/// The text of a reply whose obligatory items fit reads back as the message with the reply's header
/// and its kept items (RFC 2131 section 2, RFC 3396).
pub fn text_reads()
    ensures { (header : Header) (room : ℕ) (items : List Item) → IsReply header room items
        → ItemsFit room items
        → Reads (reply_text header room items) (read_back header room items) }
{}

/// The sub-options that `relay`, `relay_at`, class tests and `show` use are those of the relay
/// information, option 82 (RFC 3046 section 2), whatever the options are.
pub fn relay_list_is_standard()
    ensures { (options : List Piece) → IsRelayList (value_of 82 options) (relay_list options) }
{}

/// A value of option 82 has only one list of sub-options (RFC 3046 section 2).
pub fn one_relay_list()
    ensures { (value : Option (List ℕ)) (list other : List Piece) → IsRelayList value list
        → IsRelayList value other
        → list ≡ other }
{}

/// Every message has at most 4,096 bytes, a header whose fields have their sizes, a type of one
/// byte, options of at most 4,096 bytes and sub-options of at most 255 (RFC 2131 section 2, RFC
/// 2132 section 9.6, RFC 3046 section 2).
pub fn messages_have_sizes()
    ensures { MessagesHaveSizes }
{}
