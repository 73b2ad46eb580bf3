//! What is dangerous or missing in the files, though lawful. The program warns of it where serving
//! begins.

use crate::files::Files;
use nutargs::Said;
use nutcore::{UpsId, UpsList, Users};
use nutloop::ID_SIZE;
use nutusers::{Grant, User};
use nutwords::is_word;
use std::fmt::Display;
use std::fs;
use std::io::{Error, Read};
use std::os::unix::fs::PermissionsExt;

/// The bit of a file's mode by which everybody may read it.
const READ_BY_ALL: u32 = 0o004;

/// The priority of a warning (syslog(3)), as its line begins.
const PRIORITY: &str = "<4>";

/// Writes the warnings.
#[derive(Clone, Copy)]
pub struct Warner<'a> {
    pub rt: &'a HostRuntime,
    /// Each line begins with its priority.
    pub priorities: bool,
}

impl Warner<'_> {
    /// Warns of what is dangerous in the files of these UPSs and users, and of what they lack.
    pub fn warn(self, files: Files<'_>, list: &UpsList, users: &Users) {
        let rt = self.rt;
        if let Some(path) = files.ups {
            self.warn_if(list.len() == 0, path, &"no UPS");
            for place in 0..list.len() {
                let u = UpsId { place: place as u8 };
                let name = list.name(u).map_or(b"".as_slice(), |name| name.as_bytes());
                let warning = format_args!("[{}]: no socket of a driver", name.escape_ascii());
                self.warn_if(list.socket(u).is_none(), path, &warning);
            }
        }
        if let Some(path) = files.ids {
            // It is opened a second time, so that the server misses no byte.
            let read = fs::open(rt, path).and_then(|mut file| file.read_exact(&mut [0; ID_SIZE]));
            self.warn_if(read.is_err(), path, &"gives no id for a tracked order");
        }
        if let Some(path) = files.users {
            let mode = fs::metadata(rt, path).map_or(0, |file| file.permissions().mode());
            self.warn_if(mode & READ_BY_ALL != 0, path, &"everybody may read it");
            self.warn_if(users.as_slice().is_empty(), path, &"no users");
            for user in users.as_slice() {
                self.warn_of_user(path, user);
            }
        }
    }

    /// Warns that the record of this path can't be made.
    pub fn warn_of_record(self, path: &str, error: &Error) {
        let error = Said(*error);
        let warning = format_args!("cannot create, and nothing is recorded: {error}");
        self.warn_if(true, path, &warning);
    }

    /// Warns of a limit of the record where none is wanted.
    pub fn warn_of_limit(self, files: Files<'_>, has_limit: bool) {
        let is_idle = has_limit && files.to_record.is_none();
        self.warn_if(is_idle, "--record-limit", &"no file to record in");
    }

    /// Warns of a user. The passwords of the example are those of examples/upsd.users.
    fn warn_of_user(self, path: &str, user: &User) {
        let (name, password) = (user.name().escape_ascii(), user.password());
        let note = |is_so, danger: &str| self.warn_if(
            is_so,
            path,
            &format_args!("[{name}]: {danger}"),
        );
        let known = matches!(password, Some(b"change-me" | b"change-me-too"));
        note(known, "a password of the example, which everybody knows");
        let small = user.grants().iter().any(is_all_in_small_letters);
        note(small, "only ALL grants every command");
        let unset = password.is_none();
        note(unset, "a user without a password, who may do nothing");
    }

    fn warn_if<D: Display>(self, is_so: bool, path: &str, warning: &D) {
        if is_so {
            let mark = if self.priorities { PRIORITY } else { "" };
            let _ = eprintln!(self.rt; "{mark}upsd: warning: {path}: {warning}");
        }
    }
}

/// It is `ALL`, but not in capitals: a command of that name.
fn is_all_in_small_letters(grant: &Grant) -> bool {
    matches!(grant, Grant::Command(name) if is_word(name.as_bytes(), b"ALL"))
}
