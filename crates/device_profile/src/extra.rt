ghost use Rattle.std.specs.Prelude.{◌≡◌, map, option_and_then};
ghost use Rattle.toml.specs.Data.{as_table, get_member};
ghost use Rattle.toml.specs.View.{table_view};
ghost use Rattle.device_profile.specs.Profile as spec;

use crate::lookups::member;
use toml::Table;

// Whether a name is one of these.
fn is_among(name: &str, names: &[&str]) -> bool
    ensures { result ≡ spec.is_among name.now (map (λ s. s.now) names.now) }
{
    for other in names {
        if name == *other {
            return true;
        }
    }
    false
}

// Whether every key of a table is one of these.
fn has_only(table: &Table, names: &[&str]) -> bool
    ensures { result ≡ spec.has_only (map (λ s. s.now) names.now) (table_view table.now) }
{
    'members: for (key, _member) in table.iter() {
        if !is_among(key.as_str(), names) {
            return false;
        }
    }
    true
}

const TOP: [&str; 12] = [
    "cap", "start", "resume", "log", "p", "q", "fill", "basic", "memory", "out", "write", "wake",
];

const PARTS: [&str; 3] = ["ticks", "bound", "actual"];

// Whether a table, if it is one, has the keys of a cost alone.
fn is_plain(table: &Table, section: &str) -> bool
    ensures { result ≡ spec.is_plain (option_and_then as_table (get_member section.now (table_view table.now))) }
{
    match member(table, section) {
        Some(value) => match value.as_table() {
            Some(inner) => has_only(inner, &PARTS),
            None => true,
        },
        None => true,
    }
}

/// Whether there is a further key.
pub(crate) fn has_extra(table: &Table) -> bool
    ensures { result ≡ spec.has_extra (table_view table.now) }
{
    if !has_only(table, &TOP) {
        return true;
    }
    if !is_plain(table, "basic") {
        return true;
    }
    if !is_plain(table, "memory") {
        return true;
    }
    if !is_plain(table, "out") {
        return true;
    }
    if !is_plain(table, "write") {
        return true;
    }
    !is_plain(table, "wake")
}
