ghost use Rattle.std.specs.Prelude.{◌≡◌, ◌+◌, ◌++◌, ◌-◌, ◌^◌, OnOk, codes, min, string_bytes};
ghost use Rattle.std.specs.List.{sum_by};
ghost use Rattle.std.specs.Option.{option_copied};
ghost use Rattle.kd_program.specs.Banner.{subnet_addresses, banner_text, amounts_text, grouped, latest_text, place_text, pool_size, removed_line, store_text, three_digits};

use kd_commands::Listening;
use kd_config::{Pool, Subnet};
use kd_names::put_signs;
use kd_text::put_address;
use std::alloc::{AllocError, Global};
use std::fmt::Write;

/// What a server reports about itself before it serves.
#[derive(Clone, Copy)]
pub struct Banner<'a> {
    /// The socket.
    pub listening: Listening,
    /// How much its configuration contains.
    pub sizes: Sizes,
    /// The number of rows of leases at its start.
    pub leases: usize,
    /// The time of the latest change of a row, in whole seconds; 0 if there are no rows.
    pub latest: u64,
    /// The path of its store, or `memory`.
    pub store: &'a str,
}

/// How much a configuration contains.
#[derive(Clone, Copy)]
pub struct Sizes {
    /// The number of its subnets.
    pub subnets: usize,
    /// The number of addresses in their pools.
    pub addresses: u64,
}

// Returns the number of addresses in the pools of these subnets.
pub(crate) fn pool_addresses(subnets: &[Subnet]) -> u64
    ensures { result ≡ subnet_addresses subnets.now }
{
    let mut sum: u64 = 0;
    for subnet in subnets {
        sum = with_pools(sum, subnet.pools.as_slice());
    }
    sum
}

// Adds the number of addresses in these pools to a number.
fn with_pools(sum: u64, pools: &[Pool]) -> u64
    ensures { result ≡ min (sum + sum_by pool_size pools.now) (2 ^ 64 - 1) }
{
    let mut all = sum;
    for pool in pools {
        all = all.saturating_add(size_of_pool(pool));
    }
    all
}

// Returns the number of addresses of a pool.
fn size_of_pool(pool: &Pool) -> u64
    ensures { result ≡ pool_size pool.now }
{
    let first = u64::from(pool.range.first);
    let last = u64::from(pool.range.last);
    last.saturating_sub(first) + 1
}

// Prints the line
// `serving ADDRESS:PORT, subnets N, addresses N, leases N, latest change MOMENT, store PATH`, with
// its line feed. If there are no leases, the latest change is a dash.
#[tactic(auto, unfolding(crate::specs::Banner::banner_text))]
pub(crate) fn put_banner(
    alloc: Global,
    line: &mut String,
    banner: &Banner<'_>,
) -> Result<(), AllocError>
    ensures { OnOk result (string_bytes line.new ≡ string_bytes line.old
        ++ banner_text banner.now.listening banner.now.sizes banner.now.leases banner.now.latest
        banner.now.store.now) }
{
    line.push_str("serving ")?;
    put_place(line, banner.listening.bind, banner.listening.port)?;
    put_counts(line, banner)?;
    line.push_str(", latest change ")?;
    put_latest(line, banner)?;
    put_store(alloc, line, banner.store)
}

// Prints a line that says how many bytes were removed from the record at a path, if any were.
pub(crate) fn put_removed(
    alloc: Global,
    line: &mut String,
    path: Option<&str>,
    removed: u64,
) -> Result<(), AllocError>
    ensures { OnOk result (string_bytes line.new
        ≡ string_bytes line.old ++ removed_line (option_copied path.entry) removed) }
{
    let Some(path) = path else {
        return Ok(());
    };
    if removed == 0 {
        return Ok(());
    }
    line.push_str("record ")?;
    put_signs(alloc, line, path.as_bytes())?;
    write!(
        line,
        ": its last line was not whole, {removed} bytes of it are removed\n"
    )
}

// Prints an address, a number in host order, and a port.
#[tactic(auto, unfolding(crate::specs::Banner::place_text))]
pub(crate) fn put_place(line: &mut String, address: u32, port: u16) -> Result<(), AllocError>
    ensures { OnOk result
        (string_bytes line.new ≡ string_bytes line.old ++ place_text address port) }
{
    put_address(line, address)?;
    write!(line, ":{port}")
}

// Prints how much the configuration contains, and the number of leases.
#[tactic(auto, unfolding(crate::specs::Banner::amounts_text))]
fn put_counts(line: &mut String, banner: &Banner<'_>) -> Result<(), AllocError>
    ensures { OnOk result (string_bytes line.new
        ≡ string_bytes line.old ++ amounts_text banner.now.sizes banner.now.leases) }
{
    line.push_str(", subnets ")?;
    put_grouped(line, banner.sizes.subnets as u64)?;
    line.push_str(", addresses ")?;
    put_grouped(line, banner.sizes.addresses)?;
    line.push_str(", leases ")?;
    put_grouped(line, banner.leases as u64)
}

// Prints the time of the latest change, or a dash if there are no leases.
#[tactic(auto, unfolding(crate::specs::Banner::latest_text))]
fn put_latest(line: &mut String, banner: &Banner<'_>) -> Result<(), AllocError>
    ensures { OnOk result (string_bytes line.new
        ≡ string_bytes line.old ++ latest_text banner.now.leases banner.now.latest) }
{
    if banner.leases == 0 {
        return line.push_str("-");
    }
    let latest = banner.latest;
    write!(line, "{latest}")
}

// Prints the path of the store, and the line feed.
#[tactic(auto, unfolding(crate::specs::Banner::store_text))]
fn put_store(alloc: Global, line: &mut String, store: &str) -> Result<(), AllocError>
    ensures { OnOk result (string_bytes line.new ≡ string_bytes line.old ++ store_text store.now) }
{
    line.push_str(", store ")?;
    put_signs(alloc, line, store.as_bytes())?;
    line.push_str("\n")
}

// Prints a number with commas between its groups of three digits.
#[tactic(auto, using(crate::proofs::Grouped::one_group))]
fn put_grouped(line: &mut String, number: u64) -> Result<(), AllocError>
    ensures { OnOk result (string_bytes line.new ≡ string_bytes line.old ++ grouped number) }
{
    if number < 1_000 {
        return write!(line, "{number}");
    }
    put_grouped(line, number / 1_000)?;
    put_group(line, number % 1_000)
}

// Prints a comma and the three digits of a number below a thousand.
fn put_group(line: &mut String, number: u64) -> Result<(), AllocError>
    ensures { OnOk result (string_bytes line.new
        ≡ string_bytes line.old ++ (codes "," ++ three_digits number)) }
{
    let hundreds = number / 100;
    let tens = number / 10 % 10;
    let ones = number % 10;
    write!(line, ",{hundreds}{tens}{ones}")
}
