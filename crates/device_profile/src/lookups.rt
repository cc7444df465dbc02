ghost use Rattle.std.specs.Prelude.{◌≡◌, option_map};
ghost use Rattle.toml.specs.Data.{get_member};
ghost use Rattle.toml.specs.View.{table_view, view};
ghost use Rattle.device_profile.specs.Profile as spec;

use crate::keys::{Key, name, section};
use toml::{Table, Value};

// The value at a name.
pub(crate) fn member<'a>(table: &'a Table, name: &str) -> Option<&'a Value>
    ensures { option_map (λ v. view v.now) result ≡ get_member name.now (table_view table.now) }
{
    table.get(name)
}

// The value at a name in a table.
fn member_in<'a>(table: &'a Table, section: &str, name: &str) -> Option<&'a Value>
    ensures { option_map (λ v. view v.now) result ≡ spec.in_section section.now name.now (table_view table.now) }
{
    match member(table, section) {
        Some(value) => match value.as_table() {
            Some(inner) => member(inner, name),
            None => None,
        },
        None => None,
    }
}

/// The value at a key.
pub(crate) fn value<'a>(table: &'a Table, key: Key) -> Option<&'a Value>
    ensures { option_map (λ v. view v.now) result ≡ spec.value_at key (table_view table.now) }
{
    match section(key) {
        Some(section) => member_in(table, section, name(key)),
        None => member(table, name(key)),
    }
}

const ALL: [Key; 22] = [
    Key::Cap,
    Key::Start,
    Key::Resume,
    Key::Log,
    Key::P,
    Key::Q,
    Key::Fill,
    Key::BasicTicks,
    Key::BasicBound,
    Key::BasicActual,
    Key::MemoryTicks,
    Key::MemoryBound,
    Key::MemoryActual,
    Key::OutTicks,
    Key::OutBound,
    Key::OutActual,
    Key::WriteTicks,
    Key::WriteBound,
    Key::WriteActual,
    Key::WakeTicks,
    Key::WakeBound,
    Key::WakeActual,
];

// The first of these keys that is missing.
fn missing_of(keys: &[Key], table: &Table) -> Option<Key>
    ensures { result ≡ spec.first_missing keys.now (table_view table.now) }
{
    for key in keys {
        if value(table, *key).is_none() {
            return Some(*key);
        }
    }
    None
}

/// The first key that is missing.
pub(crate) fn first_missing(table: &Table) -> Option<Key>
    ensures { result ≡ spec.first_missing spec.all_keys (table_view table.now) }
{
    missing_of(&ALL, table)
}
