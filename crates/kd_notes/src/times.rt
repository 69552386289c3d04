ghost use Rattle.std.specs.Prelude.{◌≡◌, ◌++◌, IfOk, OnOk, Some, codes, option_and_then};
ghost use Rattle.serde_json.specs.Find.{as_array, get};
ghost use Rattle.serde_json.specs.View.{items_view, view};
ghost use Rattle.kd_config.specs.Sound.{longest_lease};
ghost use Rattle.kd_kea.specs.Lifetimes.{keys_given, own_lifetime, timers_rise, usual_keys};
ghost use Rattle.kd_notes.specs.Notes.{class_lifetime_notes, is_above_least, is_below_most, keys_below, is_said_below, is_said_by_members, is_said_in_networks, lifetime_notes, number_note, order_notes, pass_if_known, server_times, share_notes, term_notes, timer_notes, unused_share, unused_shares};
ghost use Rattle.kd_keys.specs.Rows.{plain_of};
ghost use Rattle.kd_kea.specs.Times.{has_usual_shares};

use crate::around::TimesReader;
use crate::list::NoteList;
use crate::notes::NoteKind;
use crate::values::{Number, note_flag, note_number};
use crate::walk::{NotedObject, append_checked, note_failed, note_value};
use kd_classes::Lifetime;
use kd_fields::faults::SettingsFault;
use kd_fields::lists::EntryReader;
use kd_fields::place::Place;
use kd_kea::objects::lifetimes::{
    TermKeys, class_lifetime_of, given_keys_of, is_given_below, key_of_bound, key_of_timers,
};
use kd_kea::objects::times::{
    HALF, LONGEST, SEVEN_EIGHTHS, has_usable_shares, key_of_shares, key_of_times,
};
use kd_keys::alone::read_alone;
use kd_keys::keys::{UsualValue, is_usual};
use serde_json::Value;
use std::alloc::{AllocError, Global};

// Notes the lease and offer times of the whole server: each by itself, and then one of them if they
// are not in order.
#[tactic(auto, unfolding(crate::specs::Notes::server_times))]
pub(crate) fn note_server_times(
    notes: &mut NoteList,
    dhcp4: &Value,
    path: &str,
) -> Result<(), AllocError>
    ensures { OnOk result (notes.new ≡ notes.old ++ server_times path.now (view dhcp4.now)) }
{
    let last = notes.path_of_key(path, key_of_times(dhcp4))?;
    let mut inner = NoteList::new(notes.allocator());
    note_each_time(&mut inner, dhcp4, path)?;
    append_checked(notes, inner, &TimesReader, dhcp4, &last)
}

// Notes the lease and offer times of the whole server, each by itself.
fn note_each_time(notes: &mut NoteList, dhcp4: &Value, path: &str) -> Result<(), AllocError>
    ensures { OnOk result (notes.new ≡ notes.old
        ++ (term_notes 1 (Some usual_keys) path.now (view dhcp4.now)
        ++ number_note 0 86400 (codes "offer-lifetime") path.now (view dhcp4.now)
        ++ number_note 1 31536000 (codes "decline-probation-period") path.now (view dhcp4.now))) }
{
    let offer = Number {
        key: "offer-lifetime",
        least: 0,
        most: 86_400,
    };
    let decline = Number {
        key: "decline-probation-period",
        least: 1,
        most: 31_536_000,
    };
    note_server_term(notes, dhcp4, path)?;
    note_number(notes, dhcp4, path, offer)?;
    note_number(notes, dhcp4, path, decline)
}

// Notes the keys for the times of leases in the value of `Dhcp4`.
fn note_server_term(notes: &mut NoteList, dhcp4: &Value, path: &str) -> Result<(), AllocError>
    ensures { OnOk result
        (notes.new ≡ notes.old ++ term_notes 1 (Some usual_keys) path.now (view dhcp4.now)) }
{
    note_term(notes, dhcp4, path, 1, Some(TermKeys::usual()))
}

// Notes the keys for the times of leases, where they say this above the object: each by itself, T1 and
// T2 from a least time on, and then those that do not go together, and shares that are not used.
#[tactic(auto, unfolding(crate::specs::Notes::term_notes))]
pub(crate) fn note_term(
    notes: &mut NoteList,
    object: &Value,
    path: &str,
    least: u32,
    above: Option<TermKeys>,
) -> Result<(), AllocError>
    ensures { OnOk result
        (notes.new ≡ notes.old ++ term_notes least above path.now (view object.now)) }
{
    let keys = known_keys(notes.allocator(), object, above)?;
    note_lifetime(notes, object, path)?;
    note_timers(notes, object, path, least)?;
    note_order(notes, object, path, keys)?;
    note_shares(notes, object, path, keys)
}

// Returns what the keys of an object say, if it is known what they say above it.
#[tactic(auto, unfolding(crate::specs::Notes::keys_below))]
fn known_keys(
    alloc: Global,
    object: &Value,
    above: Option<TermKeys>,
) -> Result<Option<TermKeys>, AllocError>
    ensures { IfOk result (λ keys. keys ≡ keys_below above (view object.now)) }
{
    match above {
        Some(above) => read_alone(alloc, &GivenReader { above }, object),
        None => Ok(None),
    }
}

// Reads what the keys for the times of leases say, each by itself, where they say this above the value.
#[derive(Clone, Copy)]
struct GivenReader {
    above: TermKeys,
}

impl EntryReader for GivenReader {
    type Entry = TermKeys;

    ghost means = { λ reader. keys_given reader.above };

    fn read(
        &self,
        alloc: Global,
        object: &Value,
        at: &Place<'_>,
    ) -> Result<TermKeys, SettingsFault> {
        given_keys_of(alloc, object, at, self.above)
    }
}

// Notes the keys of a lifetime, each by itself.
#[tactic(auto, unfolding(crate::specs::Notes::lifetime_notes))]
fn note_lifetime(notes: &mut NoteList, object: &Value, path: &str) -> Result<(), AllocError>
    ensures { OnOk result (notes.new ≡ notes.old ++ lifetime_notes path.now (view object.now)) }
{
    note_seconds(notes, object, path, "valid-lifetime", 1)?;
    note_seconds(notes, object, path, "min-valid-lifetime", 1)?;
    note_seconds(notes, object, path, "max-valid-lifetime", 1)
}

// Notes the keys of T1 and T2, each by itself: a time has at least so many seconds.
#[tactic(auto, unfolding(crate::specs::Notes::timer_notes))]
fn note_timers(
    notes: &mut NoteList,
    object: &Value,
    path: &str,
    least: u32,
) -> Result<(), AllocError>
    ensures { OnOk result (notes.new ≡ notes.old ++ timer_notes least path.now (view object.now)) }
{
    note_seconds(notes, object, path, "renew-timer", least)?;
    note_seconds(notes, object, path, "rebind-timer", least)?;
    note_flag(notes, object, path, "calculate-tee-times")
}

// Notes that a time is wrong, unless it is absent or has at least so many seconds.
fn note_seconds(
    notes: &mut NoteList,
    object: &Value,
    path: &str,
    key: &'static str,
    least: u32,
) -> Result<(), AllocError>
    ensures { OnOk result (notes.new
        ≡ notes.old ++ number_note least longest_lease key.now path.now (view object.now)) }
{
    let seconds = Number {
        key,
        least,
        most: LONGEST,
    };
    note_number(notes, object, path, seconds)
}

// Notes keys that say this, and do not go together.
#[tactic(auto, unfolding(crate::specs::Notes::order_notes))]
fn note_order(
    notes: &mut NoteList,
    object: &Value,
    path: &str,
    keys: Option<TermKeys>,
) -> Result<(), AllocError>
    ensures { OnOk result (notes.new ≡ notes.old ++ order_notes keys path.now (view object.now)) }
{
    let wrong = NoteKind::Wrong;
    let least = key_of_bound(object, "min-valid-lifetime");
    let most = key_of_bound(object, "max-valid-lifetime");
    note_failed(notes, may_have_least(keys), path, least, wrong)?;
    note_failed(notes, may_have_most(keys), path, most, wrong)?;
    note_failed(
        notes,
        may_have_timers(keys),
        path,
        key_of_timers(object),
        wrong,
    )?;
    note_failed(
        notes,
        may_have_shares(keys),
        path,
        key_of_shares(object),
        wrong,
    )
}

// Reports whether the least lifetime is at most the usual one, or that is not known.
fn may_have_least(keys: Option<TermKeys>) -> bool
    ensures { result ≡ pass_if_known is_above_least keys }
{
    match keys {
        Some(keys) => keys.lifetime().least <= keys.usual,
        None => true,
    }
}

// Reports whether the usual lifetime is at most the greatest one, or that is not known.
fn may_have_most(keys: Option<TermKeys>) -> bool
    ensures { result ≡ pass_if_known is_below_most keys }
{
    match keys {
        Some(keys) => keys.usual <= keys.lifetime().most,
        None => true,
    }
}

// Reports whether T1 is at most T2, or that is not known.
fn may_have_timers(keys: Option<TermKeys>) -> bool
    ensures { result ≡ pass_if_known (λ keys. timers_rise keys.renew keys.rebind) keys }
{
    match keys {
        Some(keys) => keys.has_timers_in_order(),
        None => true,
    }
}

// Reports whether the shares of T1 and T2 are ones that Kea takes, or not used, or that is not known.
fn may_have_shares(keys: Option<TermKeys>) -> bool
    ensures { result ≡ pass_if_known (λ keys. has_usual_shares keys.calculated keys.shares) keys }
{
    match keys {
        Some(keys) => has_usable_shares(keys.calculated, keys.shares),
        None => true,
    }
}

// Notes the lifetime of a class: its keys by themselves, and then one of them if they do not go
// together.
#[tactic(auto, unfolding(crate::specs::Notes::class_lifetime_notes))]
pub(crate) fn note_class_lifetime(
    notes: &mut NoteList,
    class: &Value,
    path: &str,
) -> Result<(), AllocError>
    ensures { OnOk result
        (notes.new ≡ notes.old ++ class_lifetime_notes path.now (view class.now)) }
{
    let last = notes.path_of_key(path, "valid-lifetime")?;
    let mut inner = NoteList::new(notes.allocator());
    note_lifetime(&mut inner, class, path)?;
    append_checked(notes, inner, &ClassLifetimeReader, class, &last)
}

// Reads the lifetime of a class.
#[derive(Clone, Copy)]
struct ClassLifetimeReader;

impl EntryReader for ClassLifetimeReader {
    type Entry = Option<Lifetime>;

    ghost means = { λ _. own_lifetime };

    fn read(
        &self,
        alloc: Global,
        class: &Value,
        at: &Place<'_>,
    ) -> Result<Option<Lifetime>, SettingsFault> {
        class_lifetime_of(alloc, class, at)
    }
}

// A share of T1 or T2 that is not used.
#[derive(Clone, Copy)]
struct UnusedShare {
    usual: UsualValue,
}

impl NotedObject for UnusedShare {
    ghost noted = { λ it. unused_share (plain_of it.usual) };

    fn note(self, notes: &mut NoteList, share: &Value, path: &str) -> Result<(), AllocError> {
        if is_usual(self.usual, share) {
            return Ok(());
        }
        notes.push_path(path, NoteKind::Skipped)
    }
}

// Notes the shares of T1 and T2 where the keys say this, if they are not used: times are not calculated.
fn note_shares(
    notes: &mut NoteList,
    object: &Value,
    path: &str,
    keys: Option<TermKeys>,
) -> Result<(), AllocError>
    ensures { OnOk result (notes.new ≡ notes.old ++ share_notes keys path.now (view object.now)) }
{
    match keys {
        Some(keys) if !keys.calculated && !is_calculation_said(object) => {
            note_unused_shares(notes, object, path)
        }
        _ => Ok(()),
    }
}

// Reports whether a subnet or a network in a value says whether times are calculated.
fn is_calculation_said(object: &Value) -> bool
    ensures { result ≡ is_said_below (view object.now) }
{
    let key = "calculate-tee-times";
    is_given_below(object, "subnet4", key)
        || is_given_below(object, "shared-networks", key)
        || is_said_in_any_network(object)
}

// Reports whether a subnet of one of the networks in a value says so.
fn is_said_in_any_network(object: &Value) -> bool
    ensures { result
        ≡ is_said_in_networks (option_and_then as_array (get (codes "shared-networks") (view object.now))) }
{
    let Some(value) = object.get("shared-networks") else {
        return false;
    };
    match value.as_array() {
        Some(networks) => is_said_among(networks.as_slice()),
        None => false,
    }
}

// Reports whether a subnet of one of these networks says so.
fn is_said_among(networks: &[Value]) -> bool
    ensures { result ≡ is_said_by_members (items_view networks.now) }
{
    for network in networks {
        if is_given_below(network, "subnet4", "calculate-tee-times") {
            return true;
        }
    }
    false
}

// Notes shares of T1 and T2 that are not used.
fn note_unused_shares(notes: &mut NoteList, object: &Value, path: &str) -> Result<(), AllocError>
    ensures { OnOk result (notes.new ≡ notes.old ++ unused_shares path.now (view object.now)) }
{
    let renew = UnusedShare {
        usual: UsualValue::Fraction(HALF),
    };
    note_value(notes, object, path, "t1-percent", renew)?;
    let rebind = UnusedShare {
        usual: UsualValue::Fraction(SEVEN_EIGHTHS),
    };
    note_value(notes, object, path, "t2-percent", rebind)
}
