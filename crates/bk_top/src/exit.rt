//! The status of the process.
#![tactic(auto)]

ghost use Rattle.std.specs.IoError.{error_kind};
ghost use Rattle.std.specs.Prelude.{Err, IfErr, IfOk, IsOk, drop, ◌≡◌, ◌≢◌};
ghost use Rattle.std.specs.Process.{exit_status};
ghost use Rattle.std.specs.Vec.Iter.{into_iter_items};
ghost use Rattle.bk_top.specs.Ended.{ProcessEndsBy};
ghost use Rattle.bk_top.specs.Outside.{outside, port};
ghost use Rattle.bk_top.specs.Words.{AsksErrorsOnly, AsksNoLines};

use crate::program::run;
use bk_ask::words_of;
use bk_ports::{Sink, Source, StandardError, StandardOutput};
use std::alloc::Global;
use std::env::Args;
use std::io;
use std::io::ErrorKind;
use std::process::ExitCode;

/// Why there are no arguments.
#[derive(Clone, Copy)]
pub enum NoArguments {
    /// Memory for them was wanting.
    NoMemory,
    /// They can't be had, as where one isn't UTF-8.
    NotText,
}

/// The words of the command line: the arguments of the process without the first, which is the program's name, or why
/// there are none.
pub fn arguments_of(alloc: Global, arguments: io::Result<Args>) -> Result<Vec<String>, NoArguments>
    ensures words { IfOk result (λ words. IfOk arguments (λ args. words.items ≡ drop 1 (into_iter_items args))) }
    ensures wanting { IsOk arguments → IfErr result (λ why. why ≡ NoArguments.NoMemory) }
    ensures no_memory { IfErr arguments (λ error. error_kind error ≡ ErrorKind.OutOfMemory
        → result ≡ Err NoArguments.NoMemory) }
    ensures not_text { IfErr arguments (λ error. error_kind error ≢ ErrorKind.OutOfMemory
        → result ≡ Err NoArguments.NotText) }
{
    let args = arguments.map_err(why_none)?;
    words_of(alloc, args).map_err(|_| NoArguments::NoMemory)
}

// Why there are no arguments where the process gives this error for them.
fn why_none(error: io::Error) -> NoArguments
    ensures no_memory { error_kind error ≡ ErrorKind.OutOfMemory → result ≡ NoArguments.NoMemory }
    ensures not_text { error_kind error ≢ ErrorKind.OutOfMemory → result ≡ NoArguments.NotText }
{
    match error.kind() {
        ErrorKind::OutOfMemory => NoArguments::NoMemory,
        _ => NoArguments::NotText,
    }
}

/// Runs what the arguments ask, and gives the status of the run as that of the process. If there are no arguments,
/// nothing is read or written, and the status is 6 if memory was wanting, else 8. Standard output and standard error
/// can't be exchanged by who calls it, since they are of different types.
pub fn run_to_exit<S: Source, O: Sink + StandardOutput, E: Sink + StandardError>(
    alloc: Global,
    arguments: &Result<Vec<String>, NoArguments>,
    source: &mut S,
    out: &mut O,
    err: &mut E,
) -> ExitCode
    ensures ended { ProcessEndsBy arguments.now
        (outside (port S.left S.faults source.old) (port O.written O.faults out.old) (port E.written E.faults err.old))
        (outside (port S.left S.faults source.new) (port O.written O.faults out.new) (port E.written E.faults err.new))
        (exit_status result) }
    ensures unread { IfOk arguments.now (λ words. AsksNoLines words.items) → source.new ≡ source.old }
    ensures unwritten { IfOk arguments.now (λ words. AsksErrorsOnly words.items) → out.new ≡ out.old }
    ensures silent { IfOk arguments.now (λ words. ¬ AsksErrorsOnly words.items) → err.new ≡ err.old }
{
    match arguments {
        Ok(words) => ExitCode::from(run(alloc, words, source, out, err)),
        Err(NoArguments::NoMemory) => ExitCode::from(6),
        Err(NoArguments::NotText) => ExitCode::from(8),
    }
}
