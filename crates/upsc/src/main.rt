//! upsc: what a UPS server knows about its UPSs (upsc(8)).
#![tactic(auto)]

ghost use Rattle.nutclient.specs.declared.program.Program.TheVariants as program;
ghost use Rattle.std.specs.Prelude.{◌≡◌, option_and_then};
ghost use Rattle.nutclient.specs.Job.{job_of, text_in};
ghost use Rattle.upsc.specs.Words.{IsAsked, asked, upsc_words};

mod laws;

use clap::ArgMatches;
use nutargs::{Word, words};
use nutclient::{Client, Given, Program, main_of};
use std::process::ExitCode;

fn main(rt: HostRuntime) -> ExitCode {
    main_of::<Upsc>(&rt)
}

/// Its words.
static WORDS: [Word; 7] = words! {
    "l": ShortFlag('l'), Free, "List the names of the server's UPSs";
    "L": ShortFlag('L'), Free, "List the server's UPSs with their descriptions";
    "c": ShortFlag('c'), Free, "List the clients that are logged in to the UPS";
    "attached": LongFlag, Free, "Print the number of clients that are logged in to the UPS";
    "tracked": LongOption("ID"), Free, "Print how the order with this id ended, or PENDING";
    "UPS": Operand("UPS|HOST"), Free,
        "The UPS, ups[@host[:port]]; with -l or -L the server, host[:port]";
    "VAR": Operand("VAR"), Free, "Print only the value of this variable";
};

/// The program.
struct Upsc;

impl Client for Upsc {
    ghost PROGRAM = { program.Upsc };

    ghost words = { upsc_words };

    ghost asks = { IsAsked };

    const PROGRAM: Program = Program::Upsc;

    const ABOUT: &'static str = "Shows what a UPS server knows about a UPS (RFC 9271)";

    const EXAMPLE: &'static str = "Example: upsc su@localhost ups.status";

    fn words() -> &'static [Word] {
        &WORDS
    }

    fn given<'a>(found: &ArgMatches<'a>) -> Option<Given<'a>> {
        let flags = Flags {
            lists: found.get_flag("l"),
            describes: found.get_flag("L"),
            clients: found.get_flag("c"),
            attached: found.get_flag("attached"),
        };
        let (id, name) = (found.get_str("tracked"), found.get_str("VAR"));
        asked(flags, id, name, found.get_str("UPS"))
    }
}

/// Which of -l, -L, -c and --attached are there.
#[derive(Clone, Copy)]
struct Flags {
    lists: bool,
    describes: bool,
    clients: bool,
    attached: bool,
}

/// What is asked for, by these flags and by what stands after --tracked and in the places of VAR
/// and UPS.
fn asked<'a>(
    flags: Flags,
    id: Option<&'a str>,
    name: Option<&'a str>,
    server: Option<&'a str>,
) -> Option<Given<'a>>
    ensures { option_and_then job_of result ≡ asked flags.lists flags.describes flags.clients
        flags.attached (text_in id.entry) (text_in name.entry) (text_in server.entry) }
{
    let listings = u8::from(flags.lists) + u8::from(flags.describes) + u8::from(flags.clients);
    let others = u8::from(flags.attached) + u8::from(id.is_some()) + u8::from(name.is_some());
    if listings + others > 1 {
        return None;
    }
    if flags.lists {
        return Some(Given::Upses(server));
    }
    if flags.describes {
        return Some(Given::Descriptions(server));
    }
    let ups = server?;
    if flags.clients {
        return Some(Given::Clients(ups));
    }
    if flags.attached {
        return Some(Given::Attached(ups));
    }
    match (id, name) {
        (Some(id), _) => Some(Given::Tracked { ups, id }),
        (None, Some(name)) => Some(Given::Variable { ups, name }),
        (None, None) => Some(Given::Variables(ups)),
    }
}
