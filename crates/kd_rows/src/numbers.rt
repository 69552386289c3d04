ghost use Rattle.std.specs.Prelude.{◌≡◌, ◌-◌, ◌<◌, ◌≤◌, ◌^◌, IfOk, length};
ghost use Rattle.kd_rows.specs.Index.{AreKeys, IsByAddress, IsByKey, age_key, age_of, client_of, rows_in};
ghost use Rattle.kd_rows.specs.Zones.{group_in};
ghost use Rattle.kd_rows.specs.Table.{Rise};

use crate::age::left_after;
use crate::row::Row;
use crate::zones::Zones;
use std::alloc::AllocError;

// Returns the number of a row at an address. There is at most one row per address, so the number
// has 32 bits, as the address has.
pub(crate) fn number_of(slot: usize, address: u32) -> u32
    requires { address < 2 ^ 32 → slot < 2 ^ 32 }
    ensures number { result ≡ slot }
    ensures bound { address < 2 ^ 32 }
{
    slot as u32
}

// Returns the numbers of rows in ascending order of address, in that order.
pub(crate) fn numbers_by_address(rows: &Vec<Row>) -> Result<Vec<u32>, AllocError>
    requires { Rise rows.now.items }
    ensures by_address { IfOk result (λ numbers. IsByAddress rows.now.items numbers.items) }
    ensures same { IfOk result (λ numbers. rows_in rows.now.items numbers.items ≡ rows.now.items) }
{
    let mut numbers = Vec::new(*rows.allocator());
    numbers.reserve_exact(rows.len())?;
    for i in 0..rows.len() {
        numbers.push(number_of(i, rows[i].address))?;
    }
    Ok(numbers)
}

// Returns the key of a row with its number.
fn key_of(row: &Row, number: usize) -> (&[u8], u32, u32)
    requires { number ≤ row.now.address }
    ensures client { result.0.now ≡ row.now.client }
    ensures address { result.1 ≡ row.now.address }
    ensures number { result.2 ≡ number }
{
    (
        row.client.as_slice(),
        row.address,
        number_of(number, row.address),
    )
}

// Returns the keys of rows, each with the number of its row.
fn keys_of(rows: &Vec<Row>) -> Result<Vec<(&[u8], u32, u32)>, AllocError>
    requires { Rise rows.now.items }
    ensures { IfOk result
        (λ keys. AreKeys (λ x. (x.0.now, x.1)) (λ x. x.2) client_of rows.now.items
        (length rows.now.items) keys.items) }
{
    let mut keys = Vec::new(*rows.allocator());
    keys.reserve_exact(rows.len())?;
    for i in 0..rows.len() {
        keys.push(key_of(&rows[i], i))?;
    }
    Ok(keys)
}

// Returns the numbers of rows, ordered by client and address.
pub(crate) fn numbers_by_client(rows: &Vec<Row>) -> Result<Vec<u32>, AllocError>
    requires { Rise rows.now.items }
    ensures { IfOk result (λ numbers. IsByKey client_of rows.now.items numbers.items) }
{
    let mut keys = keys_of(rows)?;
    keys.sort_unstable();
    let mut numbers = Vec::new(*rows.allocator());
    numbers.reserve_exact(keys.len())?;
    for key in &keys {
        numbers.push(key.2)?;
    }
    Ok(numbers)
}

// Returns the key of a row in the age order, with its number.
fn age_with<'a>(zones: &Zones, row: &'a Row, number: usize) -> (&'a [u8], (u64, u64), u32, u32)
    requires { number ≤ row.now.address }
    ensures client { result.0.now ≡ row.now.client }
    ensures group { result.1.0 ≡ group_in zones.now row.now }
    ensures left { result.1.1 ≡ 2 ^ 64 - 1 - row.now.changed }
    ensures address { result.2 ≡ row.now.address }
    ensures number { result.3 ≡ number }
{
    (
        row.client.as_slice(),
        (zones.group(row), left_after(row.changed)),
        row.address,
        number_of(number, row.address),
    )
}

// Returns the keys of rows in the age order, each with the number of its row.
fn ages_of<'a>(
    zones: &Zones,
    rows: &'a Vec<Row>,
) -> Result<Vec<(&'a [u8], (u64, u64), u32, u32)>, AllocError>
    requires { Rise rows.now.items }
    ensures { IfOk result
        (λ keys. AreKeys (λ x. (age_key x.0.now x.1.0 x.1.1, x.2)) (λ x. x.3)
        (age_of zones.now) rows.now.items (length rows.now.items) keys.items) }
{
    let mut keys = Vec::new(*rows.allocator());
    keys.reserve_exact(rows.len())?;
    for i in 0..rows.len() {
        keys.push(age_with(zones, &rows[i], i))?;
    }
    Ok(keys)
}

// Returns the numbers of rows in the age order.
pub(crate) fn numbers_by_age(zones: &Zones, rows: &Vec<Row>) -> Result<Vec<u32>, AllocError>
    requires { Rise rows.now.items }
    ensures { IfOk result (λ numbers. IsByKey (age_of zones.now) rows.now.items numbers.items) }
{
    let mut ages = ages_of(zones, rows)?;
    ages.sort_unstable();
    let mut numbers = Vec::new(*rows.allocator());
    numbers.reserve_exact(ages.len())?;
    for age in &ages {
        numbers.push(age.3)?;
    }
    Ok(numbers)
}
