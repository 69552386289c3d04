ghost use Rattle.serde_json.specs.View.{view};
ghost use Rattle.kd_json.specs.Class.{class_of, has_class_keys, test_source_in, test_source};
ghost use Rattle.kd_fields.specs.Gives.{Means};
ghost use Rattle.kd_fields.specs.Steps.{must};
ghost use Rattle.kd_fields.specs.declared.faults.SettingsFault.TheVariants.{Memory};

use crate::objects::options::options_of;
use kd_classes::{Boot, Lifetime, OptionList};
use kd_fields::faults::SettingsFault;
use kd_fields::lists::EntryReader;
use kd_fields::place::{Place, bad_value};
use kd_fields::values::{check_keys, name_in, own_bytes, text_or_none};
use kd_wire::Bytes;
use serde_json::Value;
use std::alloc::Global;

/// Where the test of a class comes from.
#[derive(Drop)]
pub enum TestSource {
    /// There is no test.
    Nothing,
    /// The text of an expression.
    Expression(Bytes),
    /// The name of a token file.
    TokenFile(Bytes),
}

/// A client class as the text gives it.
#[derive(Drop)]
pub struct ClassEntry {
    /// Its name, 1 to 255 bytes.
    pub name: Bytes,
    /// Its test.
    pub source: TestSource,
    /// The options of the replies to its members.
    pub options: OptionList,
    /// What it gives to the boot fields of these replies.
    pub boot: Boot,
    /// How long the leases of its members last, if it says so.
    pub lifetime: Option<Lifetime>,
}

// Reads classes.
pub(crate) struct ClassReader;

impl EntryReader for ClassReader {
    type Entry = ClassEntry;

    ghost means = { λ _. class_of };

    #[tactic(auto, unfolding(crate::specs::Class::class_of))]
    fn read(
        &self,
        alloc: Global,
        value: &Value,
        at: &Place<'_>,
    ) -> Result<ClassEntry, SettingsFault> {
        check_class(alloc, value, at)?;
        let name = match value.get("name").and_then(name_in) {
            Some(name) => own_bytes(alloc, name)?,
            None => return Err(bad_value(alloc, at, "name")),
        };
        let source = source_in(alloc, value, at)?;
        let options = options_of(alloc, value, at)?;
        Ok(ClassEntry {
            name,
            source,
            options,
            boot: Boot::none(),
            lifetime: None,
        })
    }
}

// Checks that the value is an object with the keys of a class.
#[tactic(auto, unfolding(crate::specs::Class::has_class_keys))]
fn check_class(alloc: Global, value: &Value, at: &Place<'_>) -> Result<(), SettingsFault>
    ensures { Means Memory result (must (has_class_keys (view value.now))) }
{
    let known = ["name", "test", "tokens", "option-data"];
    check_keys(alloc, value, at, &known, &["name"])
}

// Returns the test that the keys `test` and `tokens` give.
#[tactic(auto, unfolding(crate::specs::Class::test_source_in))]
fn source_in(alloc: Global, value: &Value, at: &Place<'_>) -> Result<TestSource, SettingsFault>
    ensures { Means Memory result (test_source_in (view value.now)) }
{
    let text = text_or_none(alloc, value, at, "test")?;
    let file = text_or_none(alloc, value, at, "tokens")?;
    source_of(alloc, at, text, file)
}

// A test is given as text or by a token file, but not both.
fn source_of(
    alloc: Global,
    at: &Place<'_>,
    text: Option<Bytes>,
    file: Option<Bytes>,
) -> Result<TestSource, SettingsFault>
    ensures { Means Memory result (test_source text file) }
{
    match (text, file) {
        (None, None) => Ok(TestSource::Nothing),
        (Some(text), None) => Ok(TestSource::Expression(text)),
        (None, Some(file)) => Ok(TestSource::TokenFile(file)),
        (Some(_), Some(_)) => Err(bad_value(alloc, at, "tokens")),
    }
}
