ghost use Rattle.std.specs.Prelude.{◌≡◌, false, map, string_bytes};
ghost use Rattle.sqlite_wal.specs.Files.{image_at};
ghost use Rattle.kd_program.specs.Running.{Carries};
ghost use Rattle.kd_program.specs.Streams.{at_ends, streams};
ghost use Rattle.kd_commands.specs.Order.{line_fault_number};
ghost use Rattle.kd_host.specs.OnFiles.{IsStatusOf, RunsOnFiles};

use crate::machine::{Below, Machine};
use kd_commands::LineFault;
use kd_io::{Output, Socket};
use kd_keeps::{Keeps, Volatile};
use kd_loops::{Link, Sink, Source};
use kd_program::{Host, StandardEnds, refuse_words, run};
use kd_store::Store;
use sqlite::{FileFrom, Start};
use sqlite_disk::Disk;
use std::fs::File;
use std::io;

/// Carries out the arguments after the program's name over this machine and three streams, and
/// returns the exit status. If they name a store, it is that of the files with the bytes that the
/// start stands for: the server stands at the table that these bytes hold.
pub fn run_on<'a, F: Start, R: Source, O: Sink, E: Sink>(
    machine: &mut Machine<'a, HostRuntime, F, Below<F>>,
    words: &[String],
    ends: &mut StandardEnds<R, O, E>,
) -> u8
    requires input { R.has_failed ends.old.input ≡ false }
    requires output { O.has_failed ends.old.output ≡ false }
    ensures carried { Carries ⟦<Machine<'a, HostRuntime, F, Below<F>> as Host>⟧
        ⟦<Store<Below<F>> as Keeps>⟧ ⟦<Volatile as Keeps>⟧ ⟦<Socket<'a> as Link>⟧
        ⟦<Output<File> as Sink>⟧ (map string_bytes words.now)
        (at_ends R.Source O.Sink E.Sink machine.old ends.old)
        (at_ends R.Source O.Sink E.Sink machine.new ends.new) result }
    ensures on_files { RunsOnFiles ⟦<FileFrom<F> as Disk>⟧
        ⟦<Machine<'a, HostRuntime, F, Below<F>> as Host>⟧
        ⟦<Store<Below<F>> as Keeps>⟧ ⟦<Socket<'a> as Link>⟧ ⟦<Output<File> as Sink>⟧ (image_at F.Start)
        (map string_bytes words.now) (streams R.Source O.Sink E.Sink ends.old)
        (record {
          streams = streams R.Source O.Sink E.Sink ends.new;
          below = machine.new.left;
        }) result }
{
    run(machine.rt.alloc(), words, machine, ends)
}

/// Reports on standard error why there are no arguments, and returns the exit status.
pub fn refuse(rt: &HostRuntime, fault: LineFault) -> u8
    ensures { IsStatusOf (line_fault_number fault) result }
{
    let stderr = rt.stderr();
    refuse_words(rt.alloc(), &mut Output::over(io::writer(&stderr)), fault)
}
