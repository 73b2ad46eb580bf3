//! upscmd: the commands of a UPS, and doing one (upscmd(8)).
#![tactic(auto)]

ghost use Rattle.nutclient.specs.declared.program.Program.TheVariants as program;
ghost use Rattle.std.specs.Prelude.{◌≡◌, option_and_then};
ghost use Rattle.nutclient.specs.Job.{job_of, text_in};
ghost use Rattle.upscmd.specs.Words.{IsAsked, asked, upscmd_words};

mod laws;

use clap::ArgMatches;
use nutargs::{Word, words};
use nutclient::{Client, Given, Program, Sender, main_of};
use std::process::ExitCode;

fn main(rt: HostRuntime) -> ExitCode {
    main_of::<Upscmd>(&rt)
}

/// Its words.
static WORDS: [Word; 8] = words! {
    "l": ShortFlag('l'), Free, "List the commands of the UPS";
    "u": ShortOption('u', "USER"), Free, "The user's name";
    "p": ShortOption('p', "PASS"), Free, "The user's password";
    "password-file": LongOption("FILE"), Free, "The file of the user's password";
    "track": LongFlag, Free, "Track the order, and print its id instead of OK";
    "UPS": Operand("UPS"), Required, "The UPS, as ups[@host[:port]]";
    "CMD": Operand("CMD"), Free, "The command to send";
    "VALUE": Operand("VALUE"), Free, "A value for the command";
};

/// The program.
struct Upscmd;

impl Client for Upscmd {
    ghost PROGRAM = { program.Upscmd };

    ghost words = { upscmd_words };

    ghost asks = { IsAsked };

    const PROGRAM: Program = Program::Upscmd;

    const ABOUT: &'static str = "Lists the commands of a UPS, or sends one (RFC 9271)";

    const EXAMPLE: &'static str =
        "Example: upscmd -u admin -p change-me su@localhost test.battery.start";

    fn words() -> &'static [Word] {
        &WORDS
    }

    fn given<'a>(found: &ArgMatches<'a>) -> Option<Given<'a>> {
        let (lists, track) = (found.get_flag("l"), found.get_flag("track"));
        let (user, password) = (found.get_str("u"), found.get_str("p"));
        let (name, value) = (found.get_str("CMD"), found.get_str("VALUE"));
        let ups = found.get_str("UPS")?;
        // The password of the first file stands after -p.
        if found.get_str("password-file").is_some() {
            return None;
        }
        asked(lists, track, user, password, name, value, ups)
    }
}

/// What is asked for of a UPS, by whether -l and --track are there, by what follows -u and -p, and
/// by CMD and VALUE.
fn asked<'a>(
    lists: bool,
    track: bool,
    user: Option<&'a str>,
    password: Option<&'a str>,
    name: Option<&'a str>,
    value: Option<&'a str>,
    ups: &'a str,
) -> Option<Given<'a>>
    ensures { option_and_then job_of result ≡ asked lists track None (text_in user.entry)
        (text_in password.entry) (text_in name.entry) (text_in value.entry) ups.now }
{
    if lists {
        let has_more = track || user.is_some() || password.is_some() || name.is_some();
        return if has_more {
            None
        } else {
            Some(Given::Commands(ups))
        };
    }
    let by = Sender {
        user: user?,
        password: password?,
        track,
    };
    Some(Given::Command {
        ups,
        name: name?,
        value,
        by,
    })
}
