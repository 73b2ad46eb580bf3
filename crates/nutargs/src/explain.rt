//! The word `--explain`: whether a second line explains a fault.
ghost use Rattle.std.specs.Prelude.{◌≡◌, IfOk, Some, codes, true};
ghost use Rattle.clap.specs.Words.{app_of, found_of, one_text};
ghost use Rattle.nutargs.specs.Words.{explained};

use crate::{Form, Need, Word, with_words};
use clap::{ArgMatches, Command};
use std::alloc::{AllocError, Global};
use std::io::IsTerminal;

static EXPLAIN: [Word; 1] = [Word {
    name: "explain",
    form: Form::LongFlag,
    need: Need::Free,
    help: "Explain a fault on a second line, as on a terminal",
}];

/// The command, which takes `--explain` too.
pub fn with_explain<'a>(alloc: Global, command: Command<'a>) -> Result<Command<'a>, AllocError>
    ensures { IfOk result (λ c. app_of c ≡ explained (app_of command.entry)) }
{
    with_words(alloc, command, &EXPLAIN)
}

/// Whether a second line explains a fault: where the word was found, or on a terminal. A program
/// that reads standard error gets each fault as one line.
pub fn explains(rt: &HostRuntime, found: &ArgMatches<'_>) -> bool
    ensures { one_text (found_of found.now) (codes "explain") ≡ Some (codes "true")
        → result ≡ true }
{
    found.get_flag("explain") || is_terminal(rt)
}

/// Whether standard error is a terminal.
pub fn is_terminal(rt: &HostRuntime) -> bool {
    rt.stderr().is_terminal()
}
