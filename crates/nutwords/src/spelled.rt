//! Words that borrow their spelling from the line.
ghost use Rattle.std.specs.Prelude.{◌≡◌, ◌≤◌, ◌<◌, ◌==◌, length, IfSome, List, ℕ, MatchOption, true, false, [], is_ok, is_some, not};
ghost use Rattle.nutwords.specs.Spelling.{is_word};
ghost use Rattle.nutwords.specs.Reading.{read_text};
ghost use Rattle.nutwords.specs.Scan.{read_from, read_line};
ghost use Rattle.nutwords.specs.Spelled.{spelled, holds_escapes, is_borrowed};
ghost use Rattle.nutwords.specs.Split.{unescaped, word_end, TakesWord, StartsInWord};
ghost use Rattle.nutwords.specs.Word.{bytes_of};
ghost use Rattle.nutwords.specs.declared.scan.ScanState.TheVariants.{Bare, Quoted};

use crate::scan::word_end;
use crate::{BadName, LINE_LIMIT, Text, TextKind, Word};
use arrayvec::ArrayVec;
use std::marker::Model;

/// A word of a line as it is spelled there, without its quotes. It is unescaped only where it is
/// read.
#[derive(Drop)]
pub struct SpelledWord<'a> {
    text: &'a [u8],
    is_escaped: bool,
}

impl<'a> Model for SpelledWord<'a> {
    ghost use Rattle.std.specs.Prelude.{ℕ, List, ◌≡◌, ◌≤◌, length};
    ghost use Rattle.nutwords.specs.Spelled.{holds_escapes};
    ghost use Rattle.nutwords.specs.declared.limits.TheConstants.{LINE_LIMIT};

    ghost Value = { List ℕ };

    ghost view = { λ w. w.text.now };

    ghost invariant = { λ w.
        (w.is_escaped ≡ holds_escapes w.text.now) × (length w.text.now ≤ LINE_LIMIT) };
}

impl<'a> SpelledWord<'a> {
    /// Its bytes, borrowed from the line, unless it holds escapes.
    pub fn as_plain(&self) -> Option<&'a [u8]>
        ensures bytes { IfSome result (λ bytes. bytes.now ≡ spelled self.now) }
        ensures plain { is_some result ≡ not (holds_escapes self.now) }
    {
        if self.is_escaped {
            None
        } else {
            Some(self.text)
        }
    }

    /// Its bytes, where they are at most so many.
    pub fn held<const N: usize>(&self) -> Option<ArrayVec<u8, N>>
        ensures { MatchOption result (N < length (spelled self.now))
            (λ bytes. bytes.items ≡ spelled self.now) }
    {
        unescaped(self.text)
    }

    /// Whether it is the word that is spelled so, in capitals or not (RFC 9271).
    pub fn is_word(&self, keyword: &[u8]) -> bool
        ensures { result ≡ is_word (spelled self.now) keyword.now }
    {
        if self.is_escaped {
            spells_word(self.text, keyword)
        } else {
            self.text.eq_ignore_ascii_case(keyword)
        }
    }

    /// Reads it as a text of this kind, with the refusals of `Text::read`.
    pub fn read<K: TextKind, const MOST: usize>(&self) -> Result<Text<K, MOST>, BadName>
        ensures { result ≡ read_text K.allows K.MAY_BE_EMPTY MOST (spelled self.now) }
    {
        if self.is_escaped {
            let bytes = unescaped::<MOST>(self.text).ok_or(BadName::TooLong)?;
            Text::read(bytes.as_slice())
        } else {
            Text::read(self.text)
        }
    }

    /// The word with the bytes that it stands for. They are borrowed from the line, unless it holds
    /// escapes.
    pub fn to_word(self) -> Word<'a>
        ensures bytes { bytes_of result ≡ spelled self.entry }
        ensures borrowed { is_borrowed result ≡ not (holds_escapes self.entry) }
    {
        match self.as_plain() {
            Some(bytes) => Word::Plain(bytes),
            None => Word::Unescaped(unescaped(self.text).unwrap()),
        }
    }
}

/// The bytes that the spelled word stands for, where they are at most so many.
fn unescaped<const N: usize>(text: &[u8]) -> Option<ArrayVec<u8, N>>
    ensures { MatchOption result (N < length (unescaped text.now false))
        (λ word. word.items ≡ unescaped text.now false) }
{
    let mut word = ArrayVec::new();
    let mut pending = false;
    for b in text {
        if *b == b'\\' && !pending {
            pending = true;
        } else {
            word.try_push(*b).ok()?;
            pending = false;
        }
    }
    Some(word)
}

/// Whether the text spells the keyword, in capitals or not.
fn spells_word(text: &[u8], keyword: &[u8]) -> bool
    ensures { result ≡ is_word (unescaped text.now false) keyword.now }
{
    let mut left = keyword;
    let mut pending = false;
    for b in text {
        if *b == b'\\' && !pending {
            pending = true;
        } else {
            let Some((first, rest)) = left.split_first() else {
                return false;
            };
            if !b.eq_ignore_ascii_case(first) {
                return false;
            }
            left = rest;
            pending = false;
        }
    }
    left.is_empty()
}

/// The words of a line that are left, first to last, each as it is spelled. `spelled_words` makes
/// it; no word is refused any more.
#[derive(Clone, Drop)]
pub struct SpelledWords<'a> {
    pub(crate) rest: &'a [u8],
}

impl<'a> Model for SpelledWords<'a> {
    ghost use Rattle.std.specs.Prelude.{ℕ, List, ◌≡◌, ◌≤◌, true, length, is_ok, is_some, not};
    ghost use Rattle.nutwords.specs.Scan.{read_line, words_of};
    ghost use Rattle.nutwords.specs.declared.limits.TheConstants.{LINE_LIMIT};

    ghost Value = { List (List ℕ) };

    ghost view = { λ w. words_of w.rest.now };

    ghost invariant = { λ w.
        (is_ok (read_line w.rest.now) ≡ true) × (length w.rest.now ≤ LINE_LIMIT) };
}

impl<'a> Iterator for SpelledWords<'a> {
    type Item = SpelledWord<'a>;

    ghost use Rattle.std.specs.Iterator.{YieldsFirstBy, item_count};
    ghost use Rattle.nutwords.specs.Spelled.{spelled};

    ghost next_gives = { YieldsFirstBy spelled (λ words. words) };

    ghost remaining = { item_count (λ words. words) };

    fn next(&mut self) -> Option<SpelledWord<'a>> {
        let (word, rest) = first_word(skip_blanks(self.rest))?;
        self.rest = rest;
        Some(word)
    }
}

/// The first word of a line that doesn't begin with a blank, and the rest of the line.
fn first_word(line: &[u8]) -> Option<(SpelledWord<'_>, &[u8])>
    requires short { length line.now ≤ LINE_LIMIT }
    requires start { StartsInWord line.now }
    requires reads { is_ok (read_line line.now) ≡ true }
    ensures takes { MatchOption result (line.now ≡ [])
        (λ w. TakesWord (read_line line.now) (spelled w.0) w.1.now) }
    ensures short { IfSome result (λ w. length w.1.now ≤ length line.now) }
{
    let first = line.first()?;
    if *first == b'"' {
        Some(quoted_word(&line[1..]))
    } else {
        Some(bare_word(line))
    }
}

/// The line after its first blanks.
fn skip_blanks(line: &[u8]) -> &[u8]
    ensures same { read_line result.now ≡ read_line line.now }
    ensures start { StartsInWord result.now }
    ensures short { length result.now ≤ length line.now }
{
    for (i, b) in line.iter().enumerate() {
        if *b != b' ' && *b != b'\t' {
            return &line[i..];
        }
    }
    &line[line.len()..]
}

/// The bare word at the front of the line, and the rest of the line.
fn bare_word(line: &[u8]) -> (SpelledWord<'_>, &[u8])
    requires short { length line.now ≤ LINE_LIMIT }
    requires reads { is_ok (read_from line.now Bare) ≡ true }
    ensures takes { TakesWord (read_from line.now Bare) (spelled result.0) result.1.now }
    ensures short { length result.1.now ≤ length line.now }
{
    let end = word_end(line, false);
    (word_of(&line[..end]), &line[end..])
}

/// The word at the front of what is after its opening quote, and the rest of the line.
fn quoted_word(inside: &[u8]) -> (SpelledWord<'_>, &[u8])
    requires short { length inside.now ≤ LINE_LIMIT }
    requires reads { is_ok (read_from inside.now Quoted) ≡ true }
    ensures takes { TakesWord (read_from inside.now Quoted) (spelled result.0) result.1.now }
    ensures short { length result.1.now ≤ length inside.now }
{
    let end = closing_quote(inside);
    (word_of(&inside[..end]), &inside[end + 1..])
}

/// The place of the closing quote.
fn closing_quote(inside: &[u8]) -> usize
    requires { is_ok (read_from inside.now Quoted) ≡ true }
    ensures value { result ≡ word_end inside.now Quoted }
    ensures within { result < length inside.now }
{
    word_end(inside, true)
}

/// The word that is spelled so.
fn word_of(text: &[u8]) -> SpelledWord<'_>
    requires { length text.now ≤ LINE_LIMIT }
    ensures { result ≡ text.now }
{
    SpelledWord {
        text,
        is_escaped: text.contains(&b'\\'),
    }
}
