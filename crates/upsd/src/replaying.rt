//! Replaying a script over what the configuration files mean.
ghost use Rattle.std.specs.Prelude.{◌≡◌, ◌⊎◌, OnOk, IfErr, Ok, Err};
ghost use Rattle.nutreplay.specs.declared.replaying.ReplayFault.{ReplayFault};
ghost use Rattle.upsd.specs.Ending.{ending_of_replay};
ghost use Rattle.upsd.specs.Replaying.{EndsOver, EndsReplay, FailsBefore, Replays};

use crate::ending::{Ending, ended};
use crate::files::{Configuration, Files, configuration_in, server_over};
use crate::reading::{FileReader, read_script};
use nutcore::Server;
use nutio::Sink;
use nutreplay::{max_age_of, replay};
use std::alloc::Global;

/// `upsd replay`: replays the script of the file over the UPSs, users and descriptions of theirs,
/// except for the last line of a record that was cut. The greatest age is that of the script.
/// The caller is shown what they mean before the script is read.
///
/// # Errors
///
/// The first file that can't be read or is refused, the script last; `BadEvent`; `Memory`; `Write`.
pub fn replay_files<'a, R: FileReader, W: Sink, J: FnOnce(&Configuration)>(
    alloc: Global,
    reader: &R,
    files: Files<'a>,
    script: &'a str,
    out: &mut W,
    judge: J,
) -> Result<(), Ending<'a>>
    requires { J.IsAlwaysCallable judge }
    ensures done { OnOk result (Replays W.contents W.failures
        (R.gives reader.now) files.entry script.entry out.old (Ok tt) out.new) }
    ensures fails { IfErr result (λ ending.
        (FailsBefore (R.gives reader.now) files.entry script.entry ending × (out.new ≡ out.old))
        ⊎ ((fault : ReplayFault) × (ending ≡ ending_of_replay script.entry fault)
        × Replays W.contents W.failures
        (R.gives reader.now) files.entry script.entry out.old (Err fault) out.new)) }
{
    let configuration = configuration_in(alloc, reader, files)?;
    judge(&configuration);
    replay_over(alloc, reader, configuration, script, out)
}

/// Replays the script of the file over a new server of this configuration.
fn replay_over<'a, R: FileReader, W: Sink>(
    alloc: Global,
    reader: &R,
    of: Configuration,
    script: &'a str,
    out: &mut W,
) -> Result<(), Ending<'a>>
    ensures { EndsOver W.contents W.failures
        (R.gives reader.now) of script.entry out.old result out.new }
{
    let lines = read_script(reader, script)?;
    let mut server = server_over(alloc, of, max_age_of(&lines))?;
    replay_lines(alloc, &mut server, script, &lines, out)
}

/// Replays these lines of a script over this server.
fn replay_lines<'a, W: Sink>(
    alloc: Global,
    server: &mut Server,
    script: &'a str,
    lines: &[u8],
    out: &mut W,
) -> Result<(), Ending<'a>>
    ensures { EndsReplay W.contents W.failures
        server.old.state lines.now script.entry out.old result out.new }
{
    ended(script, replay(alloc, server, lines, out))
}
