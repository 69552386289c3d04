ghost use Rattle.std.specs.Prelude.{◌≡◌, ◌++◌, IfOk, OnOk, string_bytes};
ghost use Rattle.kd_pools.specs.Printed.{head_text, labels_text, metric_help, metric_name, metric_text, metrics_text, sample_line, samples_text, state_line, states_text, subnet_samples};

use crate::text::put_range;
use crate::uses::{PoolUse, SubnetUse};
use kd_config::{Prefix, Range};
use kd_text::put_prefix;
use std::alloc::{AllocError, Global};
use std::fmt::Write;

// What is measured of a pool.
#[derive(Clone, Copy)]
pub(crate) enum Metric {
    // The number of its addresses.
    Size,
    // The number of addresses in each state.
    Addresses,
    // The number of reserved addresses.
    Reserved,
    // The number of free addresses.
    Free,
}

/// Prints the metrics of pools in the text format of Prometheus: `kdhcp_pool_size`,
/// `kdhcp_pool_addresses` by state, `kdhcp_pool_reserved` and `kdhcp_pool_free`. Each is a gauge,
/// with the subnet and the pool as labels.
///
/// # Errors
///
/// Out of memory.
#[tactic(auto, unfolding(crate::specs::Printed::metrics_text))]
pub fn use_metrics(alloc: Global, uses: &[SubnetUse]) -> Result<String, AllocError>
    ensures { IfOk result (λ text. string_bytes text ≡ metrics_text uses.now) }
{
    let mut out = String::new(alloc);
    put_metric(&mut out, Metric::Size, uses)?;
    put_metric(&mut out, Metric::Addresses, uses)?;
    put_metric(&mut out, Metric::Reserved, uses)?;
    put_metric(&mut out, Metric::Free, uses)?;
    Ok(out)
}

// Appends a metric: its head, and its lines for each pool.
#[tactic(auto, unfolding(crate::specs::Printed::metric_text))]
fn put_metric(out: &mut String, metric: Metric, uses: &[SubnetUse]) -> Result<(), AllocError>
    ensures { OnOk result (string_bytes out.new
        ≡ string_bytes out.old ++ metric_text metric uses.now) }
{
    put_head(out, metric)?;
    for subnet in uses {
        put_subnet(out, metric, subnet)?;
    }
    Ok(())
}

// Appends the lines that say what a metric is, and that it is a gauge.
#[tactic(auto, unfolding(crate::specs::Printed::head_text))]
fn put_head(out: &mut String, metric: Metric) -> Result<(), AllocError>
    ensures { OnOk result (string_bytes out.new ≡ string_bytes out.old ++ head_text metric) }
{
    let name = name_of(metric);
    let help = help_of(metric);
    write!(out, "# HELP {name} {help}\n# TYPE {name} gauge\n")
}

// Returns the name of a metric.
fn name_of(metric: Metric) -> &'static str
    ensures { result.now ≡ metric_name metric }
{
    match metric {
        Metric::Size => "kdhcp_pool_size",
        Metric::Addresses => "kdhcp_pool_addresses",
        Metric::Reserved => "kdhcp_pool_reserved",
        Metric::Free => "kdhcp_pool_free",
    }
}

// Returns the help text of a metric.
fn help_of(metric: Metric) -> &'static str
    ensures { result.now ≡ metric_help metric }
{
    match metric {
        Metric::Size => "Addresses of the pool.",
        Metric::Addresses => "Addresses of the pool by what their row says.",
        Metric::Reserved => "Addresses of the pool that are reserved for a client.",
        Metric::Free => "Addresses of the pool that a new client could get.",
    }
}

// Appends the lines of a metric for a subnet's pools.
fn put_subnet(out: &mut String, metric: Metric, subnet: &SubnetUse) -> Result<(), AllocError>
    ensures { OnOk result (string_bytes out.new
        ≡ string_bytes out.old ++ subnet_samples metric subnet.now) }
{
    for pool in &subnet.pools {
        put_samples(out, metric, subnet.prefix, pool)?;
    }
    Ok(())
}

// Appends the lines of a metric for a pool.
fn put_samples(
    out: &mut String,
    metric: Metric,
    prefix: Prefix,
    pool: &PoolUse,
) -> Result<(), AllocError>
    ensures { OnOk result (string_bytes out.new
        ≡ string_bytes out.old ++ samples_text metric prefix pool.now) }
{
    match metric {
        Metric::Size => put_sample(out, Metric::Size, prefix, pool.range, pool.counts.addresses),
        Metric::Addresses => put_states(out, prefix, pool),
        Metric::Reserved => {
            put_sample(
                out,
                Metric::Reserved,
                prefix,
                pool.range,
                pool.counts.reserved,
            )
        }
        Metric::Free => put_sample(out, Metric::Free, prefix, pool.range, pool.counts.free),
    }
}

// Appends the line of a metric with only the labels of the pool.
#[tactic(auto, unfolding(crate::specs::Printed::sample_line))]
fn put_sample(
    out: &mut String,
    metric: Metric,
    prefix: Prefix,
    range: Range,
    number: u64,
) -> Result<(), AllocError>
    ensures { OnOk result (string_bytes out.new
        ≡ string_bytes out.old ++ sample_line metric prefix range number) }
{
    out.push_str(name_of(metric))?;
    put_labels(out, prefix, range)?;
    write!(out, "}} {number}\n")
}

// Appends the labels of a pool, without the brace after them.
#[tactic(auto, unfolding(crate::specs::Printed::labels_text))]
fn put_labels(out: &mut String, prefix: Prefix, range: Range) -> Result<(), AllocError>
    ensures { OnOk result (string_bytes out.new
        ≡ string_bytes out.old ++ labels_text prefix range) }
{
    out.push_str("{subnet=\"")?;
    put_prefix(out, prefix.address, prefix.length)?;
    out.push_str("\",pool=\"")?;
    put_range(out, range)?;
    out.push_str("\"")
}

// Appends the lines of a pool, one for each state of its addresses.
#[tactic(auto, unfolding(crate::specs::Printed::states_text))]
fn put_states(out: &mut String, prefix: Prefix, pool: &PoolUse) -> Result<(), AllocError>
    ensures { OnOk result (string_bytes out.new
        ≡ string_bytes out.old ++ states_text prefix pool.now) }
{
    let counts = pool.counts;
    put_state(out, prefix, pool.range, "bound", counts.bound)?;
    put_state(out, prefix, pool.range, "offered", counts.offered)?;
    put_state(out, prefix, pool.range, "declined", counts.declined)?;
    put_state(out, prefix, pool.range, "ended", counts.ended)?;
    put_state(out, prefix, pool.range, "unused", counts.unused)
}

// Appends the line of a metric with the labels of the pool and a state.
#[tactic(auto, unfolding(crate::specs::Printed::state_line))]
fn put_state(
    out: &mut String,
    prefix: Prefix,
    range: Range,
    state: &str,
    number: u64,
) -> Result<(), AllocError>
    ensures { OnOk result (string_bytes out.new
        ≡ string_bytes out.old ++ state_line prefix range state.now number) }
{
    out.push_str(name_of(Metric::Addresses))?;
    put_labels(out, prefix, range)?;
    write!(out, ",state=\"{state}\"}} {number}\n")
}
