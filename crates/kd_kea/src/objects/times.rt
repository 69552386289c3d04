ghost use Rattle.std.specs.Prelude.{◌≡◌, codes};
ghost use Rattle.serde_json.specs.Find.{get};
ghost use Rattle.serde_json.specs.View.{view};
ghost use Rattle.kd_fields.specs.Gives.{Means};
ghost use Rattle.kd_fields.specs.declared.faults.SettingsFault.TheVariants.{Memory};
ghost use Rattle.kd_kea.specs.Times.{are_in_order, are_shares, fits_below, has_usual_shares, is_asked_for, is_share, kea_times, offer_time, share_given, share_key, shares_given, times_key, usual_rebind, usual_renew};

use crate::objects::lifetimes::TermKeys;
use kd_config::{Times, seconds_of};
use kd_fields::faults::SettingsFault;
use kd_fields::place::{Place, bad_value};
use kd_fields::values::number_or;
use serde_json::Value;
use std::alloc::Global;

/// The longest lease time, in seconds.
pub const LONGEST: u32 = 2_147_483_647;

/// The usual share of T1 in the lifetime (RFC 2131 section 4.4.5).
pub const HALF: f64 = 0.5;

/// The usual share of T2 in the lifetime (RFC 2131 section 4.4.5).
pub const SEVEN_EIGHTHS: f64 = 0.875;

// The bounds of a share.
pub(crate) const NOTHING: f64 = 0.0;

pub(crate) const WHOLE: f64 = 1.0;

/// The shares of T1 and T2 in the lifetime.
#[derive(Clone, Copy)]
pub struct Shares {
    /// That of T1.
    pub renew: f64,
    /// That of T2.
    pub rebind: f64,
}

/// Reads the lease and offer times of the whole server, where the keys for them say this.
///
/// # Errors
///
/// `BadValue` with the path of a key whose value is wrong, by itself or together with the others.
#[tactic(auto, unfolding(crate::specs::Times::kea_times))]
pub fn times_of(
    alloc: Global,
    object: &Value,
    at: &Place<'_>,
    keys: TermKeys,
) -> Result<Times, SettingsFault>
    ensures { Means Memory result (kea_times keys (view object.now)) }
{
    let TermKeys {
        usual: lifetime,
        calculated,
        shares,
        ..
    } = keys;
    let usual = renew_after(calculated, shares, lifetime);
    let renew = number_or(alloc, object, at, "renew-timer", 1, LONGEST, usual)?;
    let usual = rebind_after(calculated, shares, lifetime);
    let rebind = number_or(alloc, object, at, "rebind-timer", 1, LONGEST, usual)?;
    let renew_asked = is_asked(object, "renew-timer", calculated);
    let rebind_asked = is_asked(object, "rebind-timer", calculated);
    if !are_ordered(renew_asked, rebind_asked, renew, rebind, lifetime) {
        return Err(bad_value(alloc, at, key_of_times(object)));
    }
    let offer = number_or(alloc, object, at, "offer-lifetime", 0, 86_400, 0)?;
    let key = "decline-probation-period";
    let decline_hold = number_or(alloc, object, at, key, 1, 31_536_000, 86_400)?;
    Ok(Times {
        lifetime,
        renew,
        rebind,
        offer_hold: hold_after(offer),
        decline_hold,
    })
}

// Reports whether a time is given or calculated.
fn is_asked(object: &Value, key: &'static str, calculated: bool) -> bool
    ensures { result ≡ is_asked_for calculated (get key.now (view object.now)) }
{
    calculated || object.get(key).is_some()
}

// Reports whether T1 is at most T2, and T2 at most the lifetime, and whether Kea sends those that are
// asked for.
fn are_ordered(
    renew_asked: bool,
    rebind_asked: bool,
    renew: u32,
    rebind: u32,
    lifetime: u32,
) -> bool
    ensures { result ≡ are_in_order renew_asked rebind_asked renew rebind lifetime }
{
    (!renew_asked || 0 < renew)
        && is_in_bound(renew_asked && rebind_asked, renew, rebind)
        && is_in_bound(rebind_asked, rebind, lifetime)
}

// Reports whether a time is at most a bound, and less than it if it is asked for.
fn is_in_bound(asked: bool, time: u32, bound: u32) -> bool
    ensures { result ≡ fits_below asked time bound }
{
    if asked { time < bound } else { time <= bound }
}

/// Returns the key at which times that are not in order are reported: one that is given.
pub fn key_of_times(object: &Value) -> &'static str
    ensures { result.now ≡ times_key (view object.now) }
{
    if object.get("rebind-timer").is_some() {
        "rebind-timer"
    } else if object.get("renew-timer").is_some() {
        "renew-timer"
    } else {
        "calculate-tee-times"
    }
}

// Returns the shares of T1 and T2 that a value gives; those above it are the usual ones.
pub(crate) fn shares_in(object: &Value, above: Shares) -> Shares
    ensures { result ≡ shares_given above (view object.now) }
{
    Shares {
        renew: share_at(object, "t1-percent", above.renew),
        rebind: share_at(object, "t2-percent", above.rebind),
    }
}

// Returns the share at a key: the usual one if there is none, and nothing if it is no number.
fn share_at(object: &Value, key: &'static str, usual: f64) -> f64
    ensures { result ≡ share_given usual (get key.now (view object.now)) }
{
    let Some(value) = object.get(key) else {
        return usual;
    };
    match value.as_f64() {
        Some(share) => share,
        None => NOTHING,
    }
}

/// Reports whether the shares of T1 and T2 are ones that Kea takes, or not used.
pub fn has_usable_shares(calculated: bool, shares: Shares) -> bool
    ensures { result ≡ has_usual_shares calculated shares }
{
    !calculated || are_usable(shares)
}

/// Returns the key at which shares that Kea does not take are reported: one that is given, or the one by
/// which they are used.
pub fn key_of_shares(object: &Value) -> &'static str
    ensures { result.now ≡ share_key (view object.now) }
{
    if !is_usable_share(share_at(object, "t2-percent", SEVEN_EIGHTHS)) {
        "t2-percent"
    } else if object.get("t1-percent").is_some() {
        "t1-percent"
    } else if object.get("t2-percent").is_some() {
        "t2-percent"
    } else {
        "calculate-tee-times"
    }
}

// Reports whether a share is some of the lifetime, and not the whole.
fn is_usable_share(share: f64) -> bool
    ensures { result ≡ is_share share }
{
    NOTHING < share && share < WHOLE
}

// Reports whether T1 has a share, T2 a larger one, and neither is the whole lifetime.
fn are_usable(shares: Shares) -> bool
    ensures { result ≡ are_shares shares }
{
    NOTHING < shares.renew && shares.renew < shares.rebind && shares.rebind < WHOLE
}

// Returns T1 if it is not given, in seconds.
fn renew_after(calculated: bool, shares: Shares, lifetime: u32) -> u32
    ensures { result ≡ usual_renew calculated shares lifetime }
{
    if calculated {
        seconds_of(shares.renew, lifetime)
    } else {
        lifetime / 2
    }
}

// Returns T2 if it is not given, in seconds.
fn rebind_after(calculated: bool, shares: Shares, lifetime: u32) -> u32
    ensures { result ≡ usual_rebind calculated shares lifetime }
{
    if calculated {
        seconds_of(shares.rebind, lifetime)
    } else {
        (u64::from(lifetime) * 7 / 8) as u32
    }
}

// Returns how long an offer is held, in seconds.
fn hold_after(offer: u32) -> u32
    ensures { result ≡ offer_time offer }
{
    if offer == 0 { 60 } else { offer }
}
