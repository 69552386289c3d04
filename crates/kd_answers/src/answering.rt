ghost use Rattle.std.specs.Prelude.{IfOk};
ghost use Rattle.kd_answers.specs.Printed.{Answers, IsPrinted};

use crate::class_test::{answer_compile, answer_expr};
use crate::datagram::answer_show;
use crate::printed::{Printed, success};
use crate::run::{answer_eval, answer_eval_text};
use crate::token_file::answer_verify;
use kd_commands::Order;
use std::alloc::{AllocError, Global};

/// Returns what an order prints that needs only its arguments.
///
/// # Errors
///
/// Only out of memory; every other fault is printed.
pub fn answer(alloc: Global, order: &Order) -> Result<Printed, AllocError>
    requires { IsPrinted order.now }
    ensures { IfOk result (Answers order.now) }
{
    match order {
        Order::Help(text) => Ok(success(alloc, text.clone()?)),
        Order::Show { hex, names } => answer_show(alloc, hex.as_str(), *names),
        Order::Expr { text } => answer_expr(alloc, text.as_str()),
        Order::Compile { text } => answer_compile(alloc, text.as_str()),
        Order::Verify { hex } => answer_verify(alloc, hex.as_str()),
        Order::Eval { program, datagram } => {
            answer_eval(alloc, program.as_str(), datagram.as_str())
        }
        Order::EvalText { text, datagram } => {
            answer_eval_text(alloc, text.as_str(), datagram.as_str())
        }
        _ => unreachable!(),
    }
}
