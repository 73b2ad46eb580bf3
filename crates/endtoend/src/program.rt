//! A client's program, handed what the server answers to it.
ghost use Rattle.endtoend.specs.Handed.{run_by, PrintsTheVariables, PrintsTheVariable, PrintsTheNumber, PrintsTheProgress, PrintsTheSettings, PrintsTheCommands, PrintsTheNames, PrintsTheDescriptions};

use crate::laws::{
    upsc_prints_how_far_an_order_has_come, upsc_prints_the_upses, upsc_prints_the_variable,
    upsc_prints_the_variables, upsc_prints_who_is_logged_in, upscmd_prints_the_commands,
    upsrw_prints_the_variables,
};
use nutclient::{Job, run};
use nutio::{Sink, Source};
use nutrequest::{ClientFault, Session};

/// Does the job by `run`, as the programs do into a pipe or a file. Where the session's reader
/// gives what the server answers, in whatever pieces, it prints what the server holds, and nothing
/// else.
pub fn print_what_is_held<R: Source, W: Sink, O: Sink>(
    session: &mut Session<R, W>,
    out: &mut O,
    job: &Job,
) -> Result<(), ClientFault>
    ensures variables { PrintsTheVariables
        R.remaining R.failures W.failures O.contents O.failures job.now
        (run_by session.old out.old result session.new out.new) }
    ensures variable { PrintsTheVariable
        R.remaining R.failures W.failures O.contents O.failures job.now
        (run_by session.old out.old result session.new out.new) }
    ensures number { PrintsTheNumber
        R.remaining R.failures W.failures O.contents O.failures job.now
        (run_by session.old out.old result session.new out.new) }
    ensures progress { PrintsTheProgress
        R.remaining R.failures W.failures O.contents O.failures job.now
        (run_by session.old out.old result session.new out.new) }
    ensures settings { PrintsTheSettings
        R.remaining R.failures W.failures O.contents O.failures job.now
        (run_by session.old out.old result session.new out.new) }
    ensures commands { PrintsTheCommands
        R.remaining R.failures W.failures O.contents O.failures job.now
        (run_by session.old out.old result session.new out.new) }
    ensures names { PrintsTheNames
        R.remaining R.failures W.failures O.contents O.failures job.now
        (run_by session.old out.old result session.new out.new) }
    ensures descriptions { PrintsTheDescriptions
        R.remaining R.failures W.failures O.contents O.failures job.now
        (run_by session.old out.old result session.new out.new) }
{
    upsc_prints_the_variables();
    upsc_prints_the_variable();
    upsc_prints_who_is_logged_in();
    upsc_prints_how_far_an_order_has_come();
    upsrw_prints_the_variables();
    upscmd_prints_the_commands();
    upsc_prints_the_upses();
    run(session, out, false, job)
}
