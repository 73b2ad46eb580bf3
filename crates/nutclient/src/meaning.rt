//! The words of refusals (RFC 9271: error responses), in plain words.
ghost use Rattle.std.specs.Prelude.{◌≡◌, ◌≤◌, length, map};
ghost use Rattle.nutclient.specs.Meaning.{meaning, meaning_in};

/// A table of words, and of what each means.
macro_rules! meanings {
    ($($word:literal: $meaning:literal;)+) => { [$(($word, $meaning)),+] };
}

/// The words that a server may refuse by, and what each means here.
static MEANINGS: [(&str, &str); 21] = meanings! {
    "ACCESS-DENIED": "the user or the password is wrong, or the user may not do this";
    "CMD-NOT-SUPPORTED": "the UPS has no such command: upscmd -l shows those that it has";
    "DATA-STALE": "the driver reports nothing, or says that it has lost the UPS";
    "DRIVER-NOT-CONNECTED": "the server isn't connected to the driver of this UPS";
    "FEATURE-NOT-CONFIGURED": "the server isn't set up for this";
    "FEATURE-NOT-SUPPORTED": "the server can't do this";
    "INSTCMD-FAILED": "the driver takes no more orders for now, or the server has no id for one";
    "INVALID-ARGUMENT": "the server knows no such id, or doesn't do what the option asks for";
    "INVALID-PASSWORD": "the server takes no such password";
    "INVALID-USERNAME": "the server takes no such name of a user";
    "INVALID-VALUE":
        "the variable doesn't take this value: LIST ENUM and LIST RANGE say which it takes";
    "PASSWORD-REQUIRED": "the server wants a password";
    "READONLY": "the variable can't be set: upsrw shows those that can";
    "SET-FAILED": "the driver takes no more orders for now, or the server has no id for one";
    "TOO-LONG": "the variable doesn't take so long a value";
    "UNKNOWN-COMMAND": "the server has no such command of the protocol";
    "UNKNOWN-UPS": "the server has no UPS of this name: upsc -l shows those that it has";
    "USERNAME-REQUIRED": "the server wants a user";
    "VAR-NOT-SUPPORTED": "the UPS has no such variable: upsc shows those that it has";
    "ALREADY-SET-PASSWORD": "the server has a password of this connection";
    "ALREADY-SET-USERNAME": "the server has a user of this connection";
};

/// What the word means.
pub(crate) fn meaning(word: &[u8]) -> &'static str
    ensures value { result.now ≡ meaning word.now }
    ensures short { length result.now ≤ 100 }
{
    meaning_in(&MEANINGS, word)
}

/// The meaning in the first row of the word.
fn meaning_in(rows: &[(&'static str, &'static str)], word: &[u8]) -> &'static str
    ensures { result.now ≡ meaning_in (map (λ row. (row.0.now, row.1.now)) rows.now) word.now }
{
    for (known, meaning) in rows {
        if known.as_bytes() == word {
            return meaning;
        }
    }
    "RFC 9271 has what this word means"
}
