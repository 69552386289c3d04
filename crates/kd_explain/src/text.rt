ghost use Rattle.std.specs.Prelude.{◌≡◌, ◌++◌, ◌≤◌, ℕ, IfOk, List, OnOk, codes, decimal, length, string_bytes};
ghost use Rattle.kd_explain.specs.Account.{IsTextOf};
ghost use Rattle.kd_explain.specs.FoundLines.{found_text};
ghost use Rattle.kd_options.specs.Faults.{read_fault_number};

use crate::check_lines::put_checks;
use crate::class_lines::put_classes;
use crate::explaining::Explanation;
use crate::message_lines::put_message;
use crate::outcome_lines::{put_end, put_row_set};
use crate::rank_lines::put_chosen;
use crate::subnet_lines::{put_place, put_reservation, put_subnets};
use kd_config::Config;
use kd_options::{Message, ReadFault};
use kd_rows::Rows;
use std::alloc::{AllocError, Global};
use std::fmt::Write;

// What the lines are about.
#[derive(Clone, Copy)]
pub(crate) struct Scene<'a> {
    pub(crate) alloc: Global,
    pub(crate) config: &'a Config,
    pub(crate) rows: &'a Rows,
    pub(crate) message: &'a Message<'a>,
    pub(crate) moment: u64,
    pub(crate) explanation: &'a Explanation<'a>,
}

// Returns the lines of an explanation.
pub(crate) fn explanation_text(scene: &Scene<'_>) -> Result<String, AllocError>
    ensures { IfOk result (λ text. IsTextOf scene.now.config.now scene.now.rows.now.rows
        scene.now.message.now scene.now.moment scene.now.explanation.now (string_bytes text)) }
{
    let mut out = String::new(scene.alloc);
    put_explanation(&mut out, scene)?;
    Ok(out)
}

// Prints the lines of an explanation: what the message is, what is found for it, what is checked,
// and how it ends.
fn put_explanation(out: &mut String, scene: &Scene<'_>) -> Result<(), AllocError>
    ensures { OnOk result ((text : List ℕ)
        × IsTextOf scene.now.config.now scene.now.rows.now.rows scene.now.message.now
        scene.now.moment scene.now.explanation.now text
        × (string_bytes out.new ≡ string_bytes out.old ++ text)) }
{
    put_found(out, scene)?;
    put_checks(out, scene)?;
    put_end(out, scene)?;
    put_row_set(scene.alloc, out, &scene.explanation.decision.row)?;
    Ok(())
}

// Prints what is found for a message: its classes, its place, its subnet, its reservation and its
// ranks.
#[tactic(auto, unfolding(crate::specs::FoundLines::found_text))]
fn put_found(out: &mut String, scene: &Scene<'_>) -> Result<(), AllocError>
    ensures { OnOk result (string_bytes out.new ≡ string_bytes out.old
        ++ found_text scene.now.config.now scene.now.message.now scene.now.moment
        scene.now.explanation.now) }
{
    put_message(out, scene)?;
    put_classes(out, scene)?;
    put_place(out, scene)?;
    put_subnets(out, scene)?;
    put_reservation(out, scene.explanation.subnet, scene.explanation.reservation)?;
    put_chosen(out, scene)
}

// Returns the line of a datagram that cannot be read as a message.
pub(crate) fn unreadable_text(alloc: Global, fault: &ReadFault) -> Result<String, AllocError>
    ensures { IfOk result (λ text. (name : List ℕ) × (string_bytes text
        ≡ codes "unreadable: fault " ++ decimal (read_fault_number fault.now) ++ codes " " ++ name
        ++ codes "\n")) }
{
    let name = format!(in alloc; "{fault}")?;
    let mut out = String::new(alloc);
    put_fault(&mut out, fault.number(), name.as_str())?;
    Ok(out)
}

fn put_fault(out: &mut String, number: u8, name: &str) -> Result<(), AllocError>
    ensures { OnOk result (string_bytes out.new ≡ string_bytes out.old
        ++ (codes "unreadable: fault " ++ decimal number ++ codes " " ++ name.now ++ codes "\n")) }
{
    write!(out, "unreadable: fault {number} ")?;
    out.push_str(name)?;
    out.push_str("\n")?;
    Ok(())
}
