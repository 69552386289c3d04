//! No address is for two clients at once, in the words of what comes and of what is sent.
ghost use Rattle.kd_laws.specs.Replies.{RepliesReadBack};
ghost use Rattle.kd_laws.specs.Sent.{NoReplyOverlaps};

use crate::lives::lives_are_histories;
use crate::overlap::no_overlap_across;

/// Whatever a reply's text is by the rules, it reads as a DHCP message of the type that was decided
/// (RFC 2132 section 9.6), with its address, for the client of the message (RFC 6842 section 3), and
/// with the lifetime of the lease in option 51 if it assigns an address (RFC 2131 section 4.3.1).
pub fn replies_read_back()
    ensures { RepliesReadBack }
{
    kd_options::laws::messages_have_sizes();
    kd_lease::laws::ends_are_founded();
}

/// No address is sent to two clients at once, over all runs of a server, one after another, with any
/// configurations and stops.
///
/// Suppose that a datagram was answered with an ACK of an address, whose option 51 says for how many
/// seconds. If a later datagram is answered with an OFFER or an ACK of that address for another
/// client, then these seconds have passed, in the time by which the server answered; or in between
/// the first client gave the address up, by a RELEASE or DECLINE that changed its row; or it asked
/// for the address again and got it for fewer seconds, which have passed. A client is known by what
/// its replies say: option 61, or else its hardware; or, where a configuration ignores client
/// identifiers, its hardware, or else option 61.
pub fn no_reply_overlaps()
    ensures { NoReplyOverlaps }
{
    kd_lease::laws::ends_are_founded();
    replies_read_back();
    lives_are_histories();
    no_overlap_across();
}
