ghost use Rattle.std.specs.Prelude.{◌≡◌, ◌++◌, OnOk, string_bytes};
ghost use Rattle.kd_explain.specs.FoundLines.{chosen_text, rank_line, rank_lines, ranks_text, winning_rank};

use crate::check_lines::is_ruled;
use crate::text::Scene;
use crate::words::put_address_or_dash;
use kd_lease::Ranks;
use kd_options::MessageType;
use std::alloc::AllocError;

// Prints a line for each rank of a DISCOVER in its subnet. Other messages choose no address.
pub(crate) fn put_chosen(out: &mut String, scene: &Scene<'_>) -> Result<(), AllocError>
    ensures { OnOk result (string_bytes out.new ≡ string_bytes out.old
        ++ chosen_text scene.now.message.now scene.now.explanation.now.decision.answer
        scene.now.explanation.now.ranks) }
{
    let explanation = scene.explanation;
    if scene.message.kind() == MessageType::Discover && is_ruled(&explanation.decision.answer) {
        put_found(out, &explanation.ranks)
    } else {
        Ok(())
    }
}

fn put_found(out: &mut String, ranks: &Option<Ranks>) -> Result<(), AllocError>
    ensures { OnOk result (string_bytes out.new ≡ string_bytes out.old ++ ranks_text ranks.now) }
{
    match ranks {
        Some(ranks) => put_ranks(out, ranks),
        None => Ok(()),
    }
}

// Prints the ranks, the strongest first. The first that has an address wins.
#[tactic(auto, unfolding(crate::specs::FoundLines::rank_lines))]
fn put_ranks(out: &mut String, ranks: &Ranks) -> Result<(), AllocError>
    ensures { OnOk result (string_bytes out.new ≡ string_bytes out.old ++ rank_lines ranks.now) }
{
    let winner = winner(ranks);
    put_rank(out, winner == 1, "1 reserved", ranks.reserved)?;
    put_rank(out, winner == 2, "2 own", ranks.own)?;
    put_rank(out, winner == 3, "3 past", ranks.past)?;
    put_rank(out, winner == 4, "4 asked", ranks.asked)?;
    put_rank(out, winner == 5, "5 fresh", ranks.fresh)?;
    put_rank(out, winner == 6, "6 expired", ranks.expired)
}

// Returns the number of the first rank that has an address, or zero.
#[tactic(auto, unfolding(crate::specs::FoundLines::winning_rank))]
fn winner(ranks: &Ranks) -> u8
    ensures { result ≡ winning_rank ranks.now }
{
    if ranks.reserved.is_some() {
        1
    } else if ranks.own.is_some() {
        2
    } else if ranks.past.is_some() {
        3
    } else if ranks.asked.is_some() {
        4
    } else if ranks.fresh.is_some() {
        5
    } else if ranks.expired.is_some() {
        6
    } else {
        0
    }
}

#[tactic(auto, unfolding(crate::specs::FoundLines::rank_line))]
fn put_rank(
    out: &mut String,
    wins: bool,
    rank: &str,
    address: Option<u32>,
) -> Result<(), AllocError>
    ensures { OnOk result (string_bytes out.new
        ≡ string_bytes out.old ++ rank_line wins rank.now address) }
{
    out.push_str("rank ")?;
    out.push_str(rank)?;
    out.push_str(" ")?;
    put_address_or_dash(out, address)?;
    if wins {
        out.push_str(" wins\n")
    } else {
        out.push_str("\n")
    }
}
