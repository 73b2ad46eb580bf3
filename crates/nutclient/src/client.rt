//! What each program has of its own: its words, and what they ask for.
ghost use Rattle.std.specs.Prelude.{◌≡◌, List, Option, map, option_and_then, true};
ghost use Rattle.clap.specs.Words.{Rule, is_simple_and_free};
ghost use Rattle.clap.specs.declared.parser.matches.ArgMatches.{ArgMatches};
ghost use Rattle.nutargs.specs.Words.{program_with, rule_of_word};
ghost use Rattle.nutclient.specs.Ending.{name_of};
ghost use Rattle.nutclient.specs.Job.{JobParts, job_of};
ghost use Rattle.nutclient.specs.declared.program.Program.{Program};

use crate::{Given, Program};
use clap::ArgMatches;
use nutargs::Word;

/// A program of the three.
pub trait Client {
    ghost PROGRAM: { Program };

    /// The words that it takes.
    ghost words: { List Rule };

    /// The job that the words that were found ask for, if they are lawful.
    ghost asks: { ArgMatches → Option JobParts → Type 0 };

    /// Which of the programs it is.
    const PROGRAM: Program;

    /// What the program does, as its help says it.
    const ABOUT: &'static str;

    /// The example below its help.
    const EXAMPLE: &'static str;

    /// The table of its words. None of them has a rule on another one.
    fn words() -> &'static [Word]
        ensures table { map rule_of_word result.now ≡ words }
        ensures free { is_simple_and_free (program_with (name_of PROGRAM) words) ≡ true };

    /// What the words ask for, if they have one of the program's forms.
    fn given<'a>(matches: &ArgMatches<'a>) -> Option<Given<'a>>
        ensures { asks matches.now (option_and_then job_of result) };
}
