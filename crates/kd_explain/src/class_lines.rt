ghost use Rattle.std.specs.Prelude.{◌≡◌, ◌++◌, OnOk, codes, decimal, drop, string_bytes};
ghost use Rattle.std.specs.List.{flat_map};
ghost use Rattle.kd_explain.specs.FoundLines.{tested_line, class_lines, first_outcome, name_behind, names_line, outcome_words};
ghost use Rattle.kd_explain.specs.Words.{truth_word};

use crate::text::Scene;
use crate::words::{put_name, true_or_false};
use kd_classes::{ClassDef, Classes};
use kd_machine::{Held, Outcome};
use std::alloc::{AllocError, Global};
use std::fmt::Write;

// Prints a line for each class of the configuration, and one with the names of all classes that the
// message is in.
pub(crate) fn put_classes(out: &mut String, scene: &Scene<'_>) -> Result<(), AllocError>
    ensures { OnOk result (string_bytes out.new ≡ string_bytes out.old
        ++ (class_lines scene.now.config.now.classes scene.now.explanation.now.outcomes.items
        ++ names_line scene.now.explanation.now.names)) }
{
    let explanation = scene.explanation;
    put_tests(
        scene.alloc,
        out,
        scene.config.classes(),
        &explanation.outcomes,
    )?;
    put_names(scene.alloc, out, &explanation.names)
}

// Prints the lines of classes, each with its outcome.
fn put_tests(
    alloc: Global,
    out: &mut String,
    classes: &Classes,
    outcomes: &[Option<Outcome>],
) -> Result<(), AllocError>
    ensures { OnOk result (string_bytes out.new
        ≡ string_bytes out.old ++ class_lines classes.now outcomes.now) }
{
    for index in 0..classes.len() {
        match classes.def_at(index) {
            Some(class) => put_class(alloc, out, class, outcome_at(outcomes, index))?,
            None => unreachable!(),
        }
    }
    Ok(())
}

// Returns the result of the test of the class at an index, if it has a test.
fn outcome_at(outcomes: &[Option<Outcome>], index: usize) -> Option<Outcome>
    ensures { result ≡ first_outcome (drop index outcomes.now) }
{
    match outcomes.get(index) {
        Some(outcome) => *outcome,
        None => None,
    }
}

// Prints the line of a class.
#[tactic(auto, unfolding(crate::specs::FoundLines::tested_line))]
fn put_class(
    alloc: Global,
    out: &mut String,
    class: &ClassDef,
    outcome: Option<Outcome>,
) -> Result<(), AllocError>
    ensures { OnOk result (string_bytes out.new
        ≡ string_bytes out.old ++ tested_line class.now outcome) }
{
    out.push_str("class ")?;
    put_name(alloc, out, class.name.as_slice())?;
    put_outcome(out, outcome)
}

fn put_outcome(out: &mut String, outcome: Option<Outcome>) -> Result<(), AllocError>
    ensures { OnOk result (string_bytes out.new ≡ string_bytes out.old ++ outcome_words outcome) }
{
    match outcome {
        Some(outcome) => put_value(out, outcome.value, outcome.steps),
        None => out.push_str(" no test\n"),
    }
}

fn put_value(out: &mut String, value: bool, steps: u32) -> Result<(), AllocError>
    ensures { OnOk result (string_bytes out.new ≡ string_bytes out.old
        ++ (codes " " ++ truth_word value ++ codes " steps " ++ decimal steps ++ codes "\n")) }
{
    let value = true_or_false(value);
    writeln!(out, " {value} steps {steps}")
}

// Prints the line of the names of classes.
#[tactic(auto, unfolding(crate::specs::FoundLines::names_line))]
fn put_names(alloc: Global, out: &mut String, names: &Held) -> Result<(), AllocError>
    ensures { OnOk result (string_bytes out.new ≡ string_bytes out.old ++ names_line names.now) }
{
    out.push_str("classes")?;
    put_names_behind(alloc, out, names)?;
    out.push_str("\n")
}

// Prints the names, each after a space.
fn put_names_behind(alloc: Global, out: &mut String, names: &Held) -> Result<(), AllocError>
    ensures { OnOk result (string_bytes out.new ≡ string_bytes out.old
        ++ flat_map name_behind names.now) }
{
    for index in 0..names.len() {
        match names.name_at(index) {
            Some(name) => put_name_behind(alloc, out, name)?,
            None => unreachable!(),
        }
    }
    Ok(())
}

fn put_name_behind(alloc: Global, out: &mut String, name: &[u8]) -> Result<(), AllocError>
    ensures { OnOk result (string_bytes out.new ≡ string_bytes out.old ++ name_behind name.now) }
{
    out.push_str(" ")?;
    put_name(alloc, out, name)
}
