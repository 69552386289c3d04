ghost use Rattle.std.specs.Prelude.{◌≡◌, List, Some, false, true};
ghost use Rattle.kd_rows.specs.Row.{IsInRange};
ghost use Rattle.kd_rows.specs.Table.{row_at, with_row};
ghost use Rattle.kd_rows.specs.declared.row.Row.{Row as LeaseRow};

use kd_keeps::Keeps;
use kd_rows::Row;

/// Puts a row into a store unless an earlier call has failed, and returns whether it was committed.
pub fn put_row<S: Keeps>(store: &mut S, row: &Row) -> bool
    requires { IsInRange row.now }
    ensures { S.has_clean_disk store.new → result ≡ true → (table : List LeaseRow)
        → S.stands store.old table → S.stands store.new (with_row row.now table) }
{
    !store.failed() && store.put(row).is_ok()
}
