//! What a run tells at its end.

ghost use Rattle.std.specs.Prelude.{◌≡◌, ◌≤◌, IfErr};
ghost use Rattle.std.specs.Process.{exit_status};
ghost use Rattle.cli.specs.Endings.{run_status, status_of, EndsServed, TellsLine};

use crate::choices::LineError;
use crate::ending::Ending;
use crate::files::put_out;
use server::Fault;
use std::process::ExitCode;

/// Ends a run: where something kept it from being done, standard error tells why.
pub fn end_run(rt: &impl Eprint, done: Result<(), Ending<'_>>) -> ExitCode
    ensures { exit_status result ≡ run_status done.entry }
{
    match done {
        Ok(()) => ExitCode::SUCCESS,
        Err(ending) => {
            let _ = eprint!(rt; "{ending}");
            ExitCode::from(ending.status())
        }
    }
}

/// Puts the answers of sessions that were served into memory to standard output: also where a live session has told
/// that one of its files failed.
///
/// # Errors
///
/// `Output` where they are not put; else what the serving ended with.
pub fn put_served<'a>(
    rt: &impl Print,
    answers: &[u8],
    served: Result<(), Fault>,
) -> Result<(), Ending<'a>>
    ensures ending { EndsServed served result }
    ensures status { IfErr result (λ e. 2 ≤ status_of e) }
{
    match served {
        Ok(()) => put_out(rt, answers),
        Err(Fault::Told) => {
            put_out(rt, answers)?;
            Err(Ending::Told)
        }
        Err(fault) => Err(Ending::of_fault(fault)),
    }
}

/// Shows the help that a command line asks for, or says why it asks for no run.
///
/// # Errors
///
/// `Output` where help is not shown; all else but help.
pub fn tell_line<'a>(rt: &impl Print, error: &'a LineError) -> Result<(), Ending<'a>>
    ensures { TellsLine error.now result }
{
    let help = Ending::of_line(error)?;
    print!(rt; "{help}").map_err(|_| Ending::Output)
}
