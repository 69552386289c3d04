ghost use Rattle.std.specs.Prelude.{◌≡◌, ◌≤◌, OnErr, OnOk, Some};
ghost use Rattle.kd_rows.specs.Row.{IsInRange};
ghost use Rattle.kd_rows.specs.Table.{latest_of, row_at};

use kd_rows::{Row, Rows, laws};
use std::alloc::AllocError;

/// Sets a row, which is then found at its address, unless there is no memory for it.
pub fn set_row(rows: &mut Rows, row: Row) -> Result<(), AllocError>
    requires changed { latest_of rows.old.rows ≤ row.changed }
    requires range { IsInRange row }
    ensures set { OnOk result (row_at rows.new.rows row.address ≡ Some row) }
    ensures kept { OnErr result (rows.new.rows ≡ rows.old.rows) }
{
    laws::get_of_set();
    if rows.prepare(&row)? {
        rows.set(row);
    }
    Ok(())
}
