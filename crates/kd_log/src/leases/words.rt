ghost use Rattle.kd_listing.specs.declared.leases.Lease.{Lease};
ghost use Rattle.kd_log.specs.Import.{IsLeaseLine};
ghost use Rattle.kd_log.specs.LeaseParts.{AreWords};

use kd_text::cut;

// The words of a line, without the fourth and the sixth, which are the same for every lease.
#[derive(Clone, Copy)]
pub(crate) struct Words<'a> {
    pub(crate) address: &'a [u8],
    pub(crate) state: &'a [u8],
    pub(crate) client: &'a [u8],
    pub(crate) changed: &'a [u8],
    pub(crate) ends: &'a [u8],
    pub(crate) live: &'a [u8],
}

// Splits a line at its first seven spaces.
pub(crate) fn words_of(line: &[u8]) -> Words<'_>
    ensures { (lease : Lease) → IsLeaseLine line.now lease → AreWords result lease }
{
    let (address, rest) = cut(line, b' ');
    let (state, rest) = cut(rest, b' ');
    let (client, rest) = cut(rest, b' ');
    let (_, rest) = cut(rest, b' ');
    let (changed, rest) = cut(rest, b' ');
    let (_, rest) = cut(rest, b' ');
    let (ends, live) = cut(rest, b' ');
    Words {
        address,
        state,
        client,
        changed,
        ends,
        live,
    }
}
