//! The words of a program: from the system, and as its parser takes them.
ghost use Rattle.std.specs.Prelude.{◌≡◌, ◌⊎◌, IfErr, IfOk, false, map};
ghost use Rattle.clap.specs.Words.{app_of, rule_of};
ghost use Rattle.nutargs.specs.Words.{rule_of_word, with_words};

use clap::builder::ValueParser;
use clap::{Arg, ArgAction, Command};
use std::alloc::{AllocError, Global};
use std::{env, io};

/// A word of a command line.
pub struct Word {
    /// What it is found by.
    pub name: &'static str,
    pub form: Form,
    pub need: Need,
    pub help: &'static str,
}

/// How a word is written. Help calls its value by the first text.
pub enum Form {
    /// `-c`.
    ShortFlag(char),
    /// `--name`.
    LongFlag,
    /// `-c VALUE`.
    ShortOption(char, &'static str),
    /// `--name VALUE`.
    LongOption(&'static str),
    /// `--name VALUE`, as often as wanted, with this value where it isn't there.
    Presets(&'static str, &'static str),
    /// `--name VALUE`, with what the value has to be.
    Parsed(&'static str, ValueParser<'static>),
    /// A word without a dash.
    Operand(&'static str),
}

/// Whether a word has to be there.
#[derive(Clone, Copy)]
pub enum Need {
    Free,
    Required,
}

/// A table of words: of each its name, its form, whether it has to be there, and its help.
#[macro_export]
macro_rules! words {
    ($($name:literal: $form:ident$(($($of:expr),+))?, $need:ident, $help:expr;)+) => {
        [$($crate::Word { name: $name, help: $help, form: $crate::Form::$form$(($($of),+))?,
            need: $crate::Need::$need }),+]
    };
}

/// The program's words, or one of these faults: a word is no text, or memory is refused.
pub fn words_of<F: Drop>(rt: &HostRuntime, no_text: F, no_memory: F) -> Result<Vec<String>, F>
    ensures { IfErr result (λ fault. (fault ≡ no_text) ⊎ (fault ≡ no_memory)) }
{
    match env::args(rt) {
        Ok(args) => args.collect(rt.alloc()).map_err(|_| no_memory),
        Err(error) if error.kind() == io::ErrorKind::OutOfMemory => Err(no_memory),
        Err(_) => Err(no_text),
    }
}

/// The command, which takes these words too.
pub fn with_words<'a>(
    alloc: Global,
    mut command: Command<'a>,
    words: &[Word],
) -> Result<Command<'a>, AllocError>
    ensures { IfOk result
        (λ c. app_of c ≡ with_words (app_of command.entry) (map rule_of_word words.now)) }
{
    for word in words {
        command = command.arg(argument(alloc, word))?;
    }
    Ok(command)
}

/// The argument of a word.
fn argument(alloc: Global, word: &Word) -> Arg<'static>
    ensures rule { rule_of result ≡ rule_of_word word.now }
    ensures local { result.global ≡ false }
{
    let arg = Arg::new(alloc, word.name)
        .help(word.help)
        .required(matches!(word.need, Need::Required));
    match word.form {
        Form::ShortFlag(letter) => arg.short(letter).action(ArgAction::SetTrue),
        Form::LongFlag => arg.long(word.name).action(ArgAction::SetTrue),
        Form::ShortOption(letter, shown) => arg.short(letter).value_name(shown),
        Form::LongOption(shown) => arg.long(word.name).value_name(shown),
        Form::Presets(shown, value) => arg
            .long(word.name)
            .value_name(shown)
            .default_value(value)
            .action(ArgAction::Append),
        Form::Parsed(shown, by) => arg.long(word.name).value_name(shown).value_parser(by),
        Form::Operand(shown) => arg.value_name(shown),
    }
}
