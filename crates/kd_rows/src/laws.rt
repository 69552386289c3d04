//! What is true of every list of rows, whatever the program does. Each law is the contract of a
//! function that does nothing.
ghost use Rattle.kd_rows.specs.Laws.{GetOfSet, LatestOfSet, RiseOfSet, RowsAreAMap};

/// The rows are a map from addresses: reading at an address gets the entry of that map, and setting
/// a row inserts an entry.
pub fn rows_are_a_map()
    ensures { RowsAreAMap }
{}

/// After a row is set, its address has that row, and every other address has what it had before.
pub fn get_of_set()
    ensures { GetOfSet }
{}

/// Rows in ascending order of address, one per address, stay so after a row is set.
pub fn rise_of_set()
    ensures { RiseOfSet }
{}

/// A row that is set no earlier than the others is the latest.
pub fn latest_of_set()
    ensures { LatestOfSet }
{}
