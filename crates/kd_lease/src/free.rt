ghost use Rattle.std.specs.Prelude.{◌≡◌, ◌≤◌, false, option_map, true};
ghost use Rattle.std.specs.Option.{option_copied};
ghost use Rattle.kd_lease.specs.Rules.{asking};
ghost use Rattle.kd_lease.specs.Seeking.{IsNextUntaken, untaken};

use crate::question::Question;
use kd_rows::Row;

// Reports whether an address has no row (`new`), or has a row that has ended (otherwise).
pub(crate) fn is_untaken(question: &Question<'_>, new: bool, address: u32) -> bool
    ensures { result ≡ untaken (asking question.now) new address }
{
    match question.rows.get(address) {
        Some(row) => !new && !row.is_live(question.moment),
        None => new,
    }
}

// Returns the lowest such address from `first` to `last`. Reserved addresses may be skipped; if the
// table knows them, all are.
pub(crate) fn next_untaken(question: &Question<'_>, new: bool, first: u32, last: u32) -> Option<u32>
    requires { first ≤ last }
    ensures { IsNextUntaken (asking question.now) new first last result }
{
    if new {
        next_fresh(question, first, last)
    } else {
        next_expired(question, first, last)
    }
}

// Returns the lowest address that has no row.
fn next_fresh(question: &Question<'_>, first: u32, last: u32) -> Option<u32>
    requires { first ≤ last }
    ensures { IsNextUntaken (asking question.now) true first last result }
{
    match question.known {
        Some(table) => table.first_free(first, last),
        None => question.rows.first_gap(first, last),
    }
}

// Returns the lowest address whose row has ended.
fn next_expired(question: &Question<'_>, first: u32, last: u32) -> Option<u32>
    ensures { IsNextUntaken (asking question.now) false first last result }
{
    match question.known {
        Some(table) => address_of(table.next_ended(first, last, question.moment)),
        None => address_of(question.rows.next_ended(first, last, question.moment)),
    }
}

// Returns the address of a row, if there is one.
fn address_of(row: Option<&Row>) -> Option<u32>
    ensures { result ≡ option_map (λ row. row.address) (option_copied row.entry) }
{
    match row {
        Some(row) => Some(row.address),
        None => None,
    }
}
