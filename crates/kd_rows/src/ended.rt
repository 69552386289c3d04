ghost use Rattle.std.specs.Option.{option_copied};
ghost use Rattle.kd_rows.specs.Index.{IsBounded};
ghost use Rattle.kd_rows.specs.Table.{IsNextEnded};

use crate::addresses::is_among;
use crate::blocks::{BLOCK, Blocks, block_of};
use crate::open_rows::OpenRows;
use crate::row::Row;

// Returns the row with the lowest address from `first` to `last` that has ended at a time. Skips
// blocks in which no row has ended.
pub(crate) fn next_ended<'a>(
    rows: &OpenRows<'a>,
    blocks: &Blocks,
    first: u32,
    last: u32,
    moment: u64,
) -> Option<&'a Row>
    requires { IsBounded rows.now blocks.now.rows }
    ensures { IsNextEnded rows.now first last moment (option_copied result) }
{
    let end = block_of(last);
    for place in blocks.place_of(block_of(first))..blocks.len() {
        let bound = blocks.at(place);
        if end < bound.block {
            return None;
        }
        if bound.least <= moment {
            let from = first.max(bound.block * BLOCK);
            let to = last.min(bound.block * BLOCK + (BLOCK - 1));
            match ended_in(rows, from, to, moment) {
                Some(row) => return Some(row),
                None => {}
            }
        }
    }
    None
}

// Does the same, but looks at each row.
fn ended_in<'a>(rows: &OpenRows<'a>, first: u32, last: u32, moment: u64) -> Option<&'a Row>
    ensures { IsNextEnded rows.now first last moment (option_copied result) }
{
    let all = rows.all;
    for place in all.place_of(first)..all.len() {
        let row = all.row(place);
        if last < row.address {
            return None;
        }
        if row.ends <= moment && !is_among(rows.withheld, row.address) {
            return Some(row);
        }
    }
    None
}
