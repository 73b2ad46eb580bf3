//! What a program's words ask for.

/// What a program is asked to do, by its words as they were typed (upsc(8), upsrw(8), upscmd(8)).
#[derive(Clone, Copy)]
pub enum Given<'a> {
    /// `upsc UPS`: the variables of a UPS.
    Variables(&'a str),
    /// `upsc UPS VAR`: the value of a variable.
    Variable {
        ups: &'a str,
        name: &'a str,
    },
    /// `upsc -l [HOST]`: the names of the UPSs.
    Upses(Option<&'a str>),
    /// `upsc -L [HOST]`: the names of the UPSs with their descriptions.
    Descriptions(Option<&'a str>),
    /// `upsc -c UPS`: the clients that are logged in to a UPS.
    Clients(&'a str),
    /// `upsc --attached UPS`: how many clients are logged in to a UPS.
    Attached(&'a str),
    /// `upsc --tracked ID UPS`: how far the order of this id has come.
    Tracked {
        ups: &'a str,
        id: &'a str,
    },
    /// `upsrw UPS`: the variables that may be set.
    Writable(&'a str),
    /// `upsrw [--track] -s VAR=VALUE -u USER -p PASS UPS`: set a variable.
    Set {
        ups: &'a str,
        setting: &'a str,
        by: Sender<'a>,
    },
    /// `upscmd -l UPS`: the commands of a UPS.
    Commands(&'a str),
    /// `upscmd [--track] -u USER -p PASS UPS CMD [VALUE]`: do a command.
    Command {
        ups: &'a str,
        name: &'a str,
        value: Option<&'a str>,
        by: Sender<'a>,
    },
}

/// Who sends an order, `-u USER -p PASS`, and whether the server is to track it, `--track`.
#[derive(Clone, Copy)]
pub struct Sender<'a> {
    pub user: &'a str,
    pub password: &'a str,
    pub track: bool,
}
