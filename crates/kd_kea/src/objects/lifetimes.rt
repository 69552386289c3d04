ghost use Rattle.std.specs.Prelude.{◌≡◌};
ghost use Rattle.serde_json.specs.Find.{get};
ghost use Rattle.serde_json.specs.View.{items_view, view};
ghost use Rattle.kd_config.specs.Sound.{longest_lease};
ghost use Rattle.kd_fields.specs.Gives.{Means};
ghost use Rattle.kd_fields.specs.declared.faults.SettingsFault.TheVariants.{Memory};
ghost use Rattle.kd_kea.specs.Lifetimes.{bound_key, own_lifetime, has_class_lifetime, has_times_alone, is_in_bounds, is_key_among, is_key_below, kea_keys, keys_given, lifetime_between, lifetime_by, lifetime_of, seconds_or_above, term_of, term_unless_alike, timer_by, timer_key, timers_rise, usual_keys};

use crate::objects::subnet::Above;
use crate::objects::times::{
    HALF, LONGEST, SEVEN_EIGHTHS, Shares, has_usable_shares, key_of_shares, shares_in,
};
use kd_classes::Lifetime;
use kd_config::{Term, Timer, Times};
use kd_fields::faults::SettingsFault;
use kd_fields::place::{Place, bad_value};
use kd_fields::values::{number_in, number_or};
use kd_keys::flags::flag_or_default;
use serde_json::Value;
use std::alloc::Global;

// The lease time if it is not given, in seconds.
const USUAL_LIFETIME: u32 = 7200;

/// What the keys for the times of leases say at a place, each by itself.
#[derive(Clone, Copy)]
pub struct TermKeys {
    /// The lifetime.
    pub usual: u32,
    /// Its bounds.
    pub least: Option<u32>,
    pub most: Option<u32>,
    /// T1 and T2.
    pub renew: Option<u32>,
    pub rebind: Option<u32>,
    /// T1 and T2 are calculated with Kea's rounding where they are not given.
    pub calculated: bool,
    /// The shares of the lifetime by which they are.
    pub shares: Shares,
}

impl TermKeys {
    /// Returns what the keys say where none of them is given.
    pub fn usual() -> TermKeys
        ensures { result ≡ usual_keys }
    {
        TermKeys {
            usual: USUAL_LIFETIME,
            least: None,
            most: None,
            renew: None,
            rebind: None,
            calculated: false,
            shares: Shares {
                renew: HALF,
                rebind: SEVEN_EIGHTHS,
            },
        }
    }

    /// Returns the lifetime by the keys.
    pub fn lifetime(self) -> Lifetime
        ensures { result ≡ lifetime_of self }
    {
        between(self.least, self.usual, self.most)
    }

    /// Reports whether T1 is at most T2, if both are given.
    pub fn has_timers_in_order(self) -> bool
        ensures { result ≡ timers_rise self.renew self.rebind }
    {
        match (self.renew, self.rebind) {
            (Some(renew), Some(rebind)) => renew <= rebind,
            _ => true,
        }
    }

    // Returns the term that leases have by the keys.
    fn term(self) -> Term
        ensures { result ≡ term_of self }
    {
        Term {
            lifetime: self.lifetime(),
            renew: timer_for(self.calculated, self.shares.renew, self.renew),
            rebind: timer_for(self.calculated, self.shares.rebind, self.rebind),
        }
    }
}

// Returns T1 or T2: the one that is given, or else a share of the lifetime, if it is calculated.
fn timer_for(calculated: bool, share: f64, given: Option<u32>) -> Timer
    ensures { result ≡ timer_by calculated share given }
{
    match given {
        Some(seconds) => Timer::After(seconds),
        None if calculated => Timer::Share(share),
        None => Timer::Unset,
    }
}

// Returns a lifetime between bounds; a bound that is not given is the lifetime itself.
fn between(least: Option<u32>, usual: u32, most: Option<u32>) -> Lifetime
    ensures { result ≡ lifetime_between least usual most }
{
    Lifetime {
        least: least.unwrap_or(usual),
        usual,
        most: most.unwrap_or(usual),
    }
}

/// Reads what the keys of a value say together, where they say this above it.
///
/// # Errors
///
/// `BadValue` with the path of a key whose value is wrong, by itself or together with the others.
#[tactic(auto, unfolding(crate::specs::Lifetimes::kea_keys))]
pub fn keys_of(
    alloc: Global,
    object: &Value,
    at: &Place<'_>,
    above: TermKeys,
) -> Result<TermKeys, SettingsFault>
    ensures { Means Memory result (kea_keys above (view object.now)) }
{
    let keys = given_keys_of(alloc, object, at, above)?;
    let Lifetime { least, usual, most } = keys.lifetime();
    if usual < least {
        return Err(bad_value(alloc, at, key_of_bound(object, "min-valid-lifetime")));
    }
    if most < usual {
        return Err(bad_value(alloc, at, key_of_bound(object, "max-valid-lifetime")));
    }
    if !keys.has_timers_in_order() {
        return Err(bad_value(alloc, at, key_of_timers(object)));
    }
    if !has_usable_shares(keys.calculated, keys.shares) {
        return Err(bad_value(alloc, at, key_of_shares(object)));
    }
    Ok(keys)
}

/// Reads what the keys of a value say, each by itself, where they say this above it.
///
/// # Errors
///
/// `BadValue` with the path of the first key whose value is wrong by itself.
#[tactic(auto, unfolding(crate::specs::Lifetimes::keys_given))]
pub fn given_keys_of(
    alloc: Global,
    object: &Value,
    at: &Place<'_>,
    above: TermKeys,
) -> Result<TermKeys, SettingsFault>
    ensures { Means Memory result (keys_given above (view object.now)) }
{
    let key = "valid-lifetime";
    let usual = number_or(alloc, object, at, key, 1, LONGEST, above.usual)?;
    let least = seconds_or(alloc, object, at, "min-valid-lifetime", 1, above.least)?;
    let most = seconds_or(alloc, object, at, "max-valid-lifetime", 1, above.most)?;
    let renew = seconds_or(alloc, object, at, "renew-timer", 0, above.renew)?;
    let rebind = seconds_or(alloc, object, at, "rebind-timer", 0, above.rebind)?;
    let key = "calculate-tee-times";
    let calculated = flag_or_default(alloc, object, at, key, above.calculated)?;
    Ok(TermKeys {
        usual,
        least,
        most,
        renew,
        rebind,
        calculated,
        shares: shares_in(object, above.shares),
    })
}

// Returns the seconds at a key, which are at least so many; without the key they are those above.
fn seconds_or(
    alloc: Global,
    object: &Value,
    at: &Place<'_>,
    key: &'static str,
    least: u32,
    above: Option<u32>,
) -> Result<Option<u32>, SettingsFault>
    ensures { Means Memory result (seconds_or_above least above (get key.now (view object.now))) }
{
    match object.get(key) {
        Some(value) => match number_in(value, least, LONGEST) {
            Some(seconds) => Ok(Some(seconds)),
            None => Err(bad_value(alloc, at, key)),
        },
        None => Ok(above),
    }
}

/// Returns the key at which a lifetime that is not in its bounds is reported: that of the bound, if it
/// is given.
pub fn key_of_bound(object: &Value, bound: &'static str) -> &'static str
    ensures { result.now ≡ bound_key bound.now (view object.now) }
{
    if object.get(bound).is_some() {
        bound
    } else {
        "valid-lifetime"
    }
}

/// Returns the key at which timers that are not in order are reported: one that is given.
pub fn key_of_timers(object: &Value) -> &'static str
    ensures { result.now ≡ timer_key (view object.now) }
{
    if object.get("rebind-timer").is_some() {
        "rebind-timer"
    } else {
        "renew-timer"
    }
}

/// Reads the lifetime that a class has, if it has one.
///
/// # Errors
///
/// `BadValue` with the path of a key whose value is wrong, by itself or together with the others.
#[tactic(auto, unfolding(crate::specs::Lifetimes::own_lifetime))]
pub fn class_lifetime_of(
    alloc: Global,
    class: &Value,
    at: &Place<'_>,
) -> Result<Option<Lifetime>, SettingsFault>
    ensures { Means Memory result (own_lifetime (view class.now)) }
{
    let usual = seconds_or(alloc, class, at, "valid-lifetime", 1, None)?;
    let least = seconds_or(alloc, class, at, "min-valid-lifetime", 1, None)?;
    let most = seconds_or(alloc, class, at, "max-valid-lifetime", 1, None)?;
    match lifetime_for(usual, least, most) {
        Some(lifetime) => Ok(lifetime),
        None => Err(bad_value(alloc, at, "valid-lifetime")),
    }
}

// Returns the lifetime of a class by its usual, its least and its greatest one, if these may stand
// together.
fn lifetime_for(
    usual: Option<u32>,
    least: Option<u32>,
    most: Option<u32>,
) -> Option<Option<Lifetime>>
    ensures { result ≡ lifetime_by usual least most }
{
    match (usual, least, most) {
        (None, None, None) => Some(None),
        (None, Some(only), None) | (None, None, Some(only)) => {
            Some(Some(between(None, only, None)))
        }
        (None, Some(_), Some(_)) => None,
        (Some(usual), _, _) => {
            let lifetime = between(least, usual, most);
            if is_bounded(lifetime) {
                Some(Some(lifetime))
            } else {
                None
            }
        }
    }
}

// Reports whether a lifetime is in its bounds.
fn is_bounded(lifetime: Lifetime) -> bool
    ensures { result ≡ is_in_bounds lifetime }
{
    lifetime.least <= lifetime.usual && lifetime.usual <= lifetime.most
}

/// Reports whether a class in the value of `Dhcp4` has a lifetime.
pub fn is_lifetime_by_class(dhcp4: &Value) -> bool
    ensures { result ≡ has_class_lifetime (view dhcp4.now) }
{
    let classes = "client-classes";
    is_given_below(dhcp4, classes, "valid-lifetime")
        || is_given_below(dhcp4, classes, "min-valid-lifetime")
        || is_given_below(dhcp4, classes, "max-valid-lifetime")
}

/// Reports whether a value in the list at a key has another key.
pub fn is_given_below(object: &Value, list: &str, key: &str) -> bool
    ensures { result ≡ is_key_below list.now key.now (view object.now) }
{
    let Some(value) = object.get(list) else {
        return false;
    };
    match value.as_array() {
        Some(values) => is_given_among(values.as_slice(), key),
        None => false,
    }
}

// Reports whether one of these values has a key.
fn is_given_among(values: &[Value], key: &str) -> bool
    ensures { result ≡ is_key_among key.now (items_view values.now) }
{
    for value in values {
        if value.get(key).is_some() {
            return true;
        }
    }
    false
}

// Returns the term of leases, unless every lease has the times of the whole server.
pub(crate) fn term_in(above: Above) -> Option<Term>
    ensures { result ≡ term_unless_alike above }
{
    let term = above.keys.term();
    if !above.by_class && are_times_alone(above.times, term) {
        None
    } else {
        Some(term)
    }
}

// Reports whether every lease of a term has these times.
#[tactic(auto, unfolding(kd_config::specs::Term::times_of_term))]
fn are_times_alone(times: Times, term: Term) -> bool
    ensures { result ≡ has_times_alone times term }
{
    let lifetime = times.lifetime;
    let own = term.times(times, lifetime);
    term.lifetime.least == lifetime
        && term.lifetime.usual == lifetime
        && term.lifetime.most == lifetime
        && own.renew == times.renew
        && own.rebind == times.rebind
}
