//! The programs.
ghost use Rattle.std.specs.Prelude.{◌≡◌, ◌≤◌, length};
ghost use Rattle.nutclient.specs.Ending.{name_of};
ghost use Rattle.nutclient.specs.Part.{forms_of};

/// A program. It reports its faults after its name.
#[derive(Clone, Copy, Debug)]
pub enum Program {
    Upsc,
    Upsrw,
    Upscmd,
}

impl Program {
    /// Its name.
    pub fn name(self) -> &'static str
        ensures value { result.now ≡ name_of self }
        ensures short { length result.now ≤ 6 }
    {
        match self {
            Program::Upsc => "upsc",
            Program::Upsrw => "upsrw",
            Program::Upscmd => "upscmd",
        }
    }

    /// The forms of its words, one of which they have to have.
    pub fn forms(self) -> &'static str
        ensures value { result.now ≡ forms_of self }
        ensures short { length result.now ≤ 100 }
    {
        match self {
            Program::Upsc => "not UPS [VAR], -l|-L [HOST], -c|--attached UPS or --tracked ID UPS",
            Program::Upsrw => {
                "not UPS or -s VAR=VALUE -u USER -p PASS|--password-file FILE [--track] UPS"
            }
            Program::Upscmd => {
                "not -l UPS or -u USER -p PASS|--password-file FILE [--track] UPS CMD [VALUE]"
            }
        }
    }
}
