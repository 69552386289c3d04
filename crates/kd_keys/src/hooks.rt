ghost use Rattle.std.specs.Prelude.{◌≡◌, Some, codes, map, nat_eq};
ghost use Rattle.std.specs.List.{ends_with, list_any};
ghost use Rattle.serde_json.specs.Find.{get};
ghost use Rattle.serde_json.specs.View.{items_view, view};
ghost use Rattle.kd_fields.specs.Gives.{Means};
ghost use Rattle.kd_fields.specs.Steps.{must};
ghost use Rattle.kd_fields.specs.declared.faults.SettingsFault.TheVariants.{Memory};
ghost use Rattle.kd_keys.specs.Hooks.{are_quiet, hooks_are_quiet, is_quiet, quiet_libraries};

use kd_fields::faults::SettingsFault;
use kd_fields::place::{Place, unknown};
use serde_json::Value;
use std::alloc::Global;

// The libraries that add commands for the operator, or write a log for him: how their paths end.
const QUIET_LIBRARIES: &[&str] = &[
    "/libdhcp_lease_cmds.so",
    "/libdhcp_stat_cmds.so",
    "/libdhcp_host_cmds.so",
    "/libdhcp_subnet_cmds.so",
    "/libdhcp_class_cmds.so",
    "/libdhcp_cb_cmds.so",
    "/libdhcp_legal_log.so",
];

/// Checks that the hooks, if there are any, change nothing for clients.
///
/// # Errors
///
/// `Unknown` with the path of the list for other hooks.
pub fn check_hooks(alloc: Global, dhcp4: &Value, at: &Place<'_>) -> Result<(), SettingsFault>
    ensures { Means Memory result
        (must (hooks_are_quiet (get (codes "hooks-libraries") (view dhcp4.now)))) }
{
    let key = "hooks-libraries";
    match dhcp4.get(key) {
        Some(value) if !are_quiet_hooks(value) => Err(unknown(alloc, at, key)),
        _ => Ok(()),
    }
}

/// Reports whether a value is a list of hooks that change nothing for clients.
pub fn are_quiet_hooks(value: &Value) -> bool
    ensures { result ≡ hooks_are_quiet (Some (view value.now)) }
{
    let Some(hooks) = value.as_array() else {
        return false;
    };
    are_all_quiet(hooks)
}

// Reports whether each hook changes nothing for clients.
fn are_all_quiet(hooks: &[Value]) -> bool
    ensures { result ≡ are_quiet (items_view hooks.now) }
{
    for hook in hooks {
        if !is_quiet_hook(hook) {
            return false;
        }
    }
    true
}

// Reports whether a hook changes nothing for clients.
fn is_quiet_hook(hook: &Value) -> bool
    ensures { result ≡ is_quiet (view hook.now) }
{
    let Some(library) = hook.get("library") else {
        return false;
    };
    match library.as_str() {
        Some(path) => is_quiet_path(path),
        None => false,
    }
}

// Reports whether a path is that of a quiet library.
fn is_quiet_path(path: &str) -> bool
    ensures { result ≡ list_any (λ name. ends_with nat_eq path.now name) quiet_libraries }
{
    ends_as_one(path.as_bytes(), library_ends())
}

// Returns how the paths of quiet libraries end.
#[tactic(auto, unfolding(crate::specs::Hooks::quiet_libraries))]
fn library_ends() -> &'static [&'static str]
    ensures { map (λ end. end.now) result.now ≡ quiet_libraries }
{
    QUIET_LIBRARIES
}

// Reports whether a path ends as one of these do.
fn ends_as_one(path: &[u8], ends: &[&str]) -> bool
    ensures { result
        ≡ list_any (λ name. ends_with nat_eq path.now name) (map (λ end. end.now) ends.now) }
{
    for end in ends {
        if path.ends_with(end.as_bytes()) {
            return true;
        }
    }
    false
}
