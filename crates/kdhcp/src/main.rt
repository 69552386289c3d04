//! The program `kdhcp`: it carries out the arguments after its name over this machine (`kd_host`).
#![tactic(auto)]

mod version;

use kd_commands::LineFault;
use kd_host::{Input, Machine, Output, StandardEnds, inherited_socket, refuse, run_on};
use sqlite::Unknown;
use std::io;
use std::process::ExitCode;
use version::version_line;

// Carries out the arguments over this machine and its standard streams. A socket that was handed to
// the process is used by `serve`.
fn main(rt: HostRuntime) -> ExitCode {
    let (words, version) = match begin(&rt) {
        Ok(given) => given,
        Err(fault) => return ExitCode::from(refuse(&rt, fault)),
    };
    let handed = inherited_socket(&rt);
    let stderr = rt.stderr();
    let mut machine = Machine::of(&rt, &rt, version.as_str(), Unknown, handed);
    let mut ends = StandardEnds {
        input: Input::over(rt.reader()),
        output: Output::over(io::writer(&rt)),
        faults: Output::over(io::writer(&stderr)),
    };
    ExitCode::from(run_on(&mut machine, &words, &mut ends))
}

// Returns the arguments after the program's name, and the line that says its version.
fn begin(rt: &HostRuntime) -> Result<(Vec<String>, String), LineFault> {
    let words = words(rt)?;
    let version = version_line(rt.alloc())?;
    Ok((words, version))
}

// Returns the arguments after the program's name.
fn words(rt: &HostRuntime) -> Result<Vec<String>, LineFault> {
    match std::env::args(rt) {
        Ok(all) => Ok(all.skip(1).collect(rt.alloc())?),
        Err(error) if error.kind() == io::ErrorKind::OutOfMemory => Err(LineFault::Memory),
        Err(_) => Err(LineFault::CommandLine),
    }
}
