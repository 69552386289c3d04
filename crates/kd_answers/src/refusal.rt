ghost use Rattle.std.specs.Prelude.{◌≡◌, ◌≢◌, ◌++◌, IfOk, codes, string_bytes};
ghost use Rattle.std.specs.Fmt.{decimal};
ghost use Rattle.kd_compile.specs.Compiled.{compile_fault_number};
ghost use Rattle.kd_compile.specs.declared.fault.CompileFault.TheVariants as compile_faults;
ghost use Rattle.kd_expr.specs.Faults.{expr_fault_number, type_fault_number};
ghost use Rattle.kd_expr.specs.declared.fault.ExprFault.TheVariants as text_faults;
ghost use Rattle.kd_options.specs.Faults.{read_fault_number};
ghost use Rattle.kd_options.specs.declared.fault.ReadFault.TheVariants as read_faults;
ghost use Rattle.kd_token.specs.Faults.{file_fault_number, verify_fault_number};
ghost use Rattle.kd_token.specs.declared.fault.FileFault.TheVariants as file_faults;
ghost use Rattle.kd_token.specs.declared.fault.VerifyFault.TheVariants as verify_faults;
ghost use Rattle.kd_answers.specs.Printed.{IsRefusal};
ghost use Rattle.kd_answers.specs.Show.{line_feed};

use crate::printed::Printed;
use crate::status::exit_status;
use kd_commands::LineFault;
use kd_compile::CompileFault;
use kd_expr::{ExprFault, TypeFault};
use kd_options::ReadFault;
use kd_token::{FileFault, VerifyFault};
use kd_wire::Bytes;
use std::alloc::{AllocError, Global};
use std::fmt::Display;

// Returns the line for an argument that is not hexadecimal.
pub(crate) fn mistake(alloc: Global) -> Result<Printed, AllocError>
    ensures { IfOk result (IsRefusal 98) }
{
    let number = LineFault::CommandLine.number();
    refusal(alloc, number, &LineFault::CommandLine)
}

// Returns the line for a datagram with this fault.
pub(crate) fn refused_datagram(alloc: Global, fault: ReadFault) -> Result<Printed, AllocError>
    ensures ours { IfOk result (λ p. fault ≢ read_faults.Memory) }
    ensures line { IfOk result (IsRefusal (read_fault_number fault)) }
{
    match fault {
        ReadFault::Memory => Err(AllocError),
        _ => refusal(alloc, fault.number(), &fault),
    }
}

// Returns the line for a text that cannot be read because of this fault.
pub(crate) fn refused_text(alloc: Global, fault: ExprFault) -> Result<Printed, AllocError>
    ensures ours { IfOk result (λ p. fault ≢ text_faults.Memory) }
    ensures line { IfOk result (IsRefusal (expr_fault_number fault)) }
{
    match fault {
        ExprFault::Memory => Err(AllocError),
        _ => refusal(alloc, fault.number(), &fault),
    }
}

// Returns the line for an expression that is not a class test because of this fault.
pub(crate) fn refused_type(alloc: Global, fault: TypeFault) -> Result<Printed, AllocError>
    ensures { IfOk result (IsRefusal (type_fault_number fault)) }
{
    let number = fault.number();
    refusal(alloc, number, &fault)
}

// Returns the line for a class test that exceeds a limit.
pub(crate) fn refused_test(alloc: Global, fault: CompileFault) -> Result<Printed, AllocError>
    ensures ours { IfOk result (λ p. fault ≢ compile_faults.Memory) }
    ensures line { IfOk result (IsRefusal (compile_fault_number fault)) }
{
    match fault {
        CompileFault::Memory => Err(AllocError),
        _ => refusal(alloc, fault.number(), &fault),
    }
}

// Returns the line for bytes that are not a token file because of this fault.
pub(crate) fn refused_file(alloc: Global, fault: FileFault) -> Result<Printed, AllocError>
    ensures ours { IfOk result (λ p. fault ≢ file_faults.Memory) }
    ensures line { IfOk result (IsRefusal (file_fault_number fault)) }
{
    match fault {
        FileFault::Memory => Err(AllocError),
        _ => refusal(alloc, fault.number(), &fault),
    }
}

// Returns the line for a program that is not accepted because of this fault.
pub(crate) fn refused_program(alloc: Global, fault: VerifyFault) -> Result<Printed, AllocError>
    ensures ours { IfOk result (λ p. fault ≢ verify_faults.Memory) }
    ensures line { IfOk result (IsRefusal (verify_fault_number fault)) }
{
    match fault {
        VerifyFault::Memory => Err(AllocError),
        _ => refusal(alloc, fault.number(), &fault),
    }
}

// Makes a fault's line on standard error, and its exit status.
fn refusal<F: Display>(alloc: Global, number: u8, fault: &F) -> Result<Printed, AllocError>
    ensures { IfOk result (IsRefusal number) }
{
    let name = format!(in alloc; "{fault}")?;
    let line = fault_line(alloc, number, name.as_str())?;
    Ok(Printed {
        out: Bytes::own(Vec::new(alloc)),
        fault: Bytes::own(line.into_bytes()),
        status: exit_status(number),
    })
}

// `fault NUMBER NAME`, and the operands after the name.
fn fault_line(alloc: Global, number: u8, name: &str) -> Result<String, AllocError>
    ensures { IfOk result (λ line. string_bytes line
        ≡ codes "fault " ++ decimal number ++ codes " " ++ name.now ++ line_feed) }
{
    format!(in alloc; "fault {number} {name}\n")
}
