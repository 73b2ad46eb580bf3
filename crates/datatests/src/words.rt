//! Lines as words, and words as lines.
use crate::row::Row;
use crate::shown::{push_fault, push_number, push_word};
use nutwords::{LINE_LIMIT, Line, TextLines, Word, Words, quote_into, quoted_len, words};
use std::alloc::AllocError;

/// The answer to a row of lines or words, if it is one.
pub fn push_answer(answer: &mut String, row: &Row<'_>) -> Result<bool, AllocError> {
    match row.kind {
        "words" => push_words(answer, row.text)?,
        "borrowed" => push_borrowed(answer, row.text)?,
        "quote" => push_quoted(answer, row.text)?,
        "quoted_len" => push_quoted_len(answer, row.text)?,
        _ => return Ok(false),
    }
    Ok(true)
}

/// The words of a line with a bar after each, or the line's fault.
fn push_words(answer: &mut String, line: &[u8]) -> Result<(), AllocError> {
    if line.len() > LINE_LIMIT {
        return answer.push_str("too long");
    }
    match words(line) {
        Ok(words) => push_each(answer, words),
        Err(fault) => push_fault(answer, fault.number(), &fault),
    }
}

fn push_each(answer: &mut String, words: Words<'_>) -> Result<(), AllocError> {
    for word in words {
        push_word(answer, word.as_bytes())?;
    }
    Ok(())
}

/// What a line's first five calls for a word give.
fn push_borrowed(answer: &mut String, line: &[u8]) -> Result<(), AllocError> {
    if line.len() > LINE_LIMIT {
        return answer.push_str("too long");
    }
    match words(line) {
        Ok(mut words) => push_calls(answer, &mut words),
        Err(fault) => push_fault(answer, fault.number(), &fault),
    }
}

fn push_calls(answer: &mut String, words: &mut Words<'_>) -> Result<(), AllocError> {
    for _ in 0..5 {
        push_call(answer, words.next())?;
    }
    Ok(())
}

/// A word as it is borrowed, or as it is made of its escapes.
fn push_call(answer: &mut String, word: Option<Word<'_>>) -> Result<(), AllocError> {
    match word {
        Some(Word::Plain(bytes)) => {
            answer.push_str("plain ")?;
            push_word(answer, bytes)
        }
        Some(word) => {
            answer.push_str("unescaped ")?;
            push_word(answer, word.as_bytes())
        }
        None => answer.push_str("none|"),
    }
}

/// The line of the words, a line each, and its words as they are read.
fn push_quoted(answer: &mut String, text: &[u8]) -> Result<(), AllocError> {
    let mut line = Line::new();
    for word in TextLines::of(text) {
        if !quotes(&mut line, word) {
            answer.push_str("too long, or of another length ")?;
        }
    }
    push_word(answer, line.as_slice())?;
    answer.push_str(" read: ")?;
    push_words(answer, line.as_slice())
}

/// Quotes the word at the end of the line, after a space where words are before it. Answers whether
/// it is as long as expected.
fn quotes(line: &mut Line, word: &[u8]) -> bool {
    if line.len() > 64 || word.len() > 64 || quoted_len(word) > 64 {
        return false;
    }
    if !line.is_empty() {
        line.push(b' ');
    }
    let before = line.len();
    quote_into(word, line);
    line.len() == before + quoted_len(word)
}

fn push_quoted_len(answer: &mut String, word: &[u8]) -> Result<(), AllocError> {
    if word.len() > LINE_LIMIT + 1 {
        return answer.push_str("too long");
    }
    push_number(answer, quoted_len(word) as u64)
}
