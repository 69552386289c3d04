use kd_keeps::Keeps;
use kd_rows::Row;
use std::fs;
use std::test::Fail;

/// Removes the files at these paths, if they exist.
pub(crate) fn remove(rt: &HostRuntime, paths: &[&str]) {
    for path in paths {
        let _gone = fs::remove_file(rt, *path);
    }
}

/// Puts a row that is in range into a store that has not failed.
pub(crate) fn put<S: Keeps>(store: &mut S, row: &Row) -> Result<(), Fail> {
    if store.failed() || !row.is_in_range() {
        return Err("no row can be put".into());
    }
    store.put(row)?;
    Ok(())
}
