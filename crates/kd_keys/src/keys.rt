ghost use Rattle.std.specs.Prelude.{◌≡◌, map, option_map};
ghost use Rattle.std.specs.List.{list_any};
ghost use Rattle.std.specs.Map.{lookup};
ghost use Rattle.std.specs.Str.{bytes_eq};
ghost use Rattle.serde_json.specs.View.{view};
ghost use Rattle.kd_keys.specs.Keys.{is_plain};
ghost use Rattle.kd_keys.specs.Rows.{plain_of, row_of, rows_of, use_of};

use serde_json::Value;

/// A value with nothing in it that could be left out.
#[derive(Clone, Copy)]
pub enum UsualValue {
    Flag(bool),
    Number(u64),
    Fraction(f64),
    Text(&'static str),
    EmptyList,
}

/// What is done with a key.
#[derive(Clone, Copy)]
pub enum KeyRule {
    // Its value is read.
    Served,
    // It is skipped, whatever its value.
    Skipped,
    // Its value must be one of these, and is not read.
    Usual(&'static [UsualValue]),
}

// A key, and what is done with it.
pub(crate) type Row = (&'static str, KeyRule);

// Reports whether a value is one of these.
pub(crate) fn is_among(value: &Value, values: &[UsualValue]) -> bool
    ensures { result
        ≡ list_any (λ plain. is_plain plain (view value.now)) (map plain_of values.now) }
{
    for usual in values {
        if is_usual(*usual, value) {
            return true;
        }
    }
    false
}

/// Reports whether a value is this one.
pub fn is_usual(usual: UsualValue, value: &Value) -> bool
    ensures { result ≡ is_plain (plain_of usual) (view value.now) }
{
    match usual {
        UsualValue::Flag(flag) => match value.as_bool() {
            Some(other) => flag == other,
            None => false,
        },
        UsualValue::Number(number) => match value.as_u64() {
            Some(other) => number == other,
            None => false,
        },
        UsualValue::Fraction(fraction) => match value.as_f64() {
            Some(other) => fraction == other,
            None => false,
        },
        UsualValue::Text(text) => match value.as_str() {
            Some(other) => text == other,
            None => false,
        },
        UsualValue::EmptyList => match value.as_array() {
            Some(list) => list.is_empty(),
            None => false,
        },
    }
}

/// Returns what is done with a key by the first table that has it.
pub fn rule_in(tables: &[&'static [Row]], key: &str) -> Option<KeyRule>
    ensures { option_map use_of result ≡ lookup (bytes_eq key.now) (rows_of tables.now) }
{
    for table in tables {
        if let Some(rule) = rule_of(table, key) {
            return Some(rule);
        }
    }
    None
}

// Returns what is done with a key by a table.
fn rule_of(table: &[Row], key: &str) -> Option<KeyRule>
    ensures { option_map use_of result ≡ lookup (bytes_eq key.now) (map row_of table.now) }
{
    for (name, rule) in table {
        if key == *name {
            return Some(*rule);
        }
    }
    None
}
