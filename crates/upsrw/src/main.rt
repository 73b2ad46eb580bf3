//! upsrw: the variables of a UPS that may be set, and setting one (upsrw(8)).
#![tactic(auto)]

ghost use Rattle.nutclient.specs.declared.program.Program.TheVariants as program;
ghost use Rattle.upsrw.specs.Words.{IsAsked, upsrw_words};

mod laws;

use clap::ArgMatches;
use nutargs::{Word, words};
use nutclient::{Client, Given, Program, Sender, main_of};
use std::process::ExitCode;

fn main(rt: HostRuntime) -> ExitCode {
    main_of::<Upsrw>(&rt)
}

/// Its words.
static WORDS: [Word; 6] = words! {
    "s": ShortOption('s', "VAR=VALUE"), Free, "Set the variable to the value";
    "u": ShortOption('u', "USER"), Free, "The user's name, for -s";
    "p": ShortOption('p', "PASS"), Free, "The user's password, for -s";
    "password-file": LongOption("FILE"), Free, "The file of the user's password, for -s";
    "track": LongFlag, Free, "Track the order, and print its id, for -s";
    "UPS": Operand("UPS"), Required, "The UPS, as ups[@host[:port]]";
};

/// The program.
struct Upsrw;

impl Client for Upsrw {
    ghost PROGRAM = { program.Upsrw };

    ghost words = { upsrw_words };

    ghost asks = { IsAsked };

    const PROGRAM: Program = Program::Upsrw;

    const ABOUT: &'static str =
        "Shows the variables of a UPS that can be set, or sets one (RFC 9271)";

    const EXAMPLE: &'static str =
        "Example: upsrw -s ups.delay=30 -u admin -p change-me su@localhost";

    fn words() -> &'static [Word] {
        &WORDS
    }

    fn given<'a>(found: &ArgMatches<'a>) -> Option<Given<'a>> {
        let track = found.get_flag("track");
        let ups = found.get_str("UPS")?;
        // A password of the first file stands after -p.
        let file = found.get_str("password-file");
        match (
            found.get_str("s"),
            found.get_str("u"),
            found.get_str("p"),
            file,
        ) {
            (Some(setting), Some(user), Some(password), None) => {
                let by = Sender {
                    user,
                    password,
                    track,
                };
                Some(Given::Set { ups, setting, by })
            }
            (None, None, None, None) if !track => Some(Given::Writable(ups)),
            _ => None,
        }
    }
}
