use kd_rows::Row;

/// A store that was opened, with the rows that were read from it at that time.
pub struct Opened<S> {
    /// The store.
    pub store: S,
    /// Its rows, in ascending order of address.
    pub rows: Vec<Row>,
}
