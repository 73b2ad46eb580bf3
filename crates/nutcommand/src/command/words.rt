//! The words of a command that name something or are a value. Each borrows its spelling from the
//! line, and is read where the command's row needs it: a command is small, whatever its words may
//! be read as.
ghost use Rattle.std.specs.Prelude.{◌≡◌, ◌≤◌, ℕ, List, Option, IfSome, length};
ghost use Rattle.std.specs.Option.{option_copied};
ghost use Rattle.std.specs.Result.{result_ok};
ghost use Rattle.nuttracking.specs.Id.{read_id};
ghost use Rattle.nutwords.specs.Reading.{read_text};
ghost use Rattle.nutwords.specs.Spelled.{spelled};

use nuttracking::{ID_LENGTH, read_id};
use nutusers::{OfCredential, PASSWORD_LIMIT, USER_NAME_LIMIT};
use nutwords::{
    NAME_LIMIT, OfName, OfValue, SpelledWord, Text, TextKind, UPS_NAME_LIMIT, VALUE_LIMIT,
};
use std::marker::{Model, PhantomData};

/// The word that is to be a text of this kind, none where it isn't one.
#[derive(Drop)]
pub struct TextWord<'a, K: TextKind, const MOST: usize> {
    word: SpelledWord<'a>,
    kind: PhantomData<K>,
}

impl<'a, K: TextKind, const MOST: usize> Model for TextWord<'a, K, MOST> {
    ghost Value = { Option (List ℕ) };

    ghost view = { λ w. result_ok (read_text K.allows K.MAY_BE_EMPTY MOST (spelled w.word)) };
}

impl<'a, K: TextKind, const MOST: usize> TextWord<'a, K, MOST> {
    /// The word that is to be such a text.
    pub(super) fn of(word: SpelledWord<'a>) -> TextWord<'a, K, MOST>
        ensures { result ≡ result_ok
            (read_text K.allows K.MAY_BE_EMPTY MOST (spelled word.entry)) }
    {
        TextWord {
            word,
            kind: PhantomData,
        }
    }

    /// The text.
    pub fn read(&self) -> Option<Text<K, MOST>>
        ensures { result ≡ self.now }
    {
        self.word.read().ok()
    }

    /// The text's bytes. They are copied only where the word holds escapes.
    pub fn bytes<'t>(&'t self, held: &'t mut Option<Text<K, MOST>>) -> Option<&'t [u8]>
        ensures value { option_copied result ≡ self.now }
        ensures short { IfSome self.now (λ text. length text ≤ MOST) }
    {
        let Some(bytes) = self.word.as_plain() else {
            *held = self.read();
            return Some(held.as_ref()?.as_bytes());
        };
        let allowed = bytes.iter().all(|b| K::allows(*b));
        let fits = bytes.len() <= MOST && (K::MAY_BE_EMPTY || !bytes.is_empty());
        (fits && allowed).then_some(bytes)
    }
}

/// The word that names a UPS.
pub type UpsWord<'a> = TextWord<'a, OfName, UPS_NAME_LIMIT>;

/// The word that names a variable or a command.
pub type NameWord<'a> = TextWord<'a, OfName, NAME_LIMIT>;

/// The word that is a value.
pub type ValueWord<'a> = TextWord<'a, OfValue, VALUE_LIMIT>;

/// The word that is the name of a user.
pub type UserWord<'a> = TextWord<'a, OfCredential, USER_NAME_LIMIT>;

/// The word that is a password.
pub type PasswordWord<'a> = TextWord<'a, OfCredential, PASSWORD_LIMIT>;

/// The id of a tracked order that the word is, none where it isn't one.
pub(super) fn id_of(word: &SpelledWord<'_>) -> Option<u128>
    ensures { result ≡ read_id (spelled word.now) }
{
    let bytes = word.held::<ID_LENGTH>()?;
    read_id(bytes.as_slice())
}
