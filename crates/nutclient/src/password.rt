//! `--password-file FILE` of upsrw and upscmd: the password comes from a file, since everybody may
//! read the words of a program.

use crate::{PASSWORD_LIMIT, Program};
use nutargs::Said;
use std::io::Read;
use std::{fs, io};

/// The word. Its file is the next word, or stands in it after `=`.
const WORD: &str = "--password-file";

const WORD_AND_FILE: &str = "--password-file=";

/// The most bytes that are read of the file: those of the longest password, its LF, and one more,
/// with which the password is too long.
const FILE_LIMIT: u64 = PASSWORD_LIMIT as u64 + 2;

/// Puts `-p=PASSWORD` in the place of the first `--password-file FILE`. The parser refuses a second
/// one, and one without a file. `None` where the file can't be read: that is reported.
pub(crate) fn put_password(
    rt: &HostRuntime,
    program: Program,
    words: &mut Vec<String>,
) -> Option<()> {
    let mut every = words.iter();
    let is_it = |word: &String| word.as_str() == WORD || word.starts_with(WORD_AND_FILE);
    let Some(i) = every.position(is_it) else {
        return Some(());
    };
    let word = match words[i].strip_prefix(WORD_AND_FILE) {
        Some(path) => password_or_report(rt, program, path)?,
        None if i + 1 == words.len() => return Some(()),
        None => {
            let path = words.remove(i + 1);
            password_or_report(rt, program, &path)?
        }
    };
    words[i] = word;
    Some(())
}

/// The word that says the password of this file. `None` where it can't be read: that is reported.
fn password_or_report(rt: &HostRuntime, program: Program, path: &str) -> Option<String> {
    let word = password_word(rt, path);
    if let Err(error) = &word {
        let (name, error) = (program.name(), Said(*error));
        let _ = eprintln!(rt; "{name}: {path}: {error}");
    }
    word.ok()
}

/// The word that says the password of this file: its one line. A file with more is refused as any
/// password with a control character is.
fn password_word(rt: &HostRuntime, path: &str) -> io::Result<String> {
    let mut text = String::new(rt.alloc());
    let mut file = fs::open(rt, path)?.take(FILE_LIMIT);
    file.read_to_string(&mut text)?;
    let password = text.strip_suffix('\n').unwrap_or(text.as_str());
    Ok(format!(in rt.alloc(); "-p={password}")?)
}
