//! The words of the command line, and the command that they ask for.
ghost use Rattle.std.specs.Prelude.{◌≡◌};
ghost use Rattle.std.specs.Vec.Iter.{into_iter_items};
ghost use Rattle.wafulexi.specs.declared.words.Command.TheVariants.{Help};
ghost use Rattle.wafulexi.specs.Commands.{parsed};
ghost use Rattle.wafulexi.specs.Words.{is_option, ended, named, unknown, sourced};

use crate::options::{Cutting, cutting_in};
use std::env::Args;

/// What the program is asked to do.
#[derive(Drop)]
pub enum Command {
    Help,
    Inspect(Source),
    Nodes(Source),
    Classes(Cutting),
}

/// Where a command reads its bytes.
#[derive(Drop)]
pub enum Source {
    Input,
    File(String),
}

/// The source that a word names. A lone dash is standard input, and any other word with a dash in front an option.
impl TryFrom<String> for Source {
    type Error = Misuse;

    ghost try_from_gives = { λ word source. source ≡ named word };

    fn try_from(word: String) -> Result<Source, Misuse> {
        if word.as_str() == "-" {
            Ok(Source::Input)
        } else if is_option(word.as_str()) {
            Err(Misuse::UnknownOption(word))
        } else {
            Ok(Source::File(word))
        }
    }
}

/// Why words ask for no command, with the word at fault if it is one.
#[derive(Drop)]
pub enum Misuse {
    NoCommand,
    UnknownCommand(String),
    UnknownOption(String),
    OneTooMany(String),
    Twice(String),
    /// An option that is the last word, where its own has to follow.
    Unfinished(String),
    NotEightDigits(String),
    FoldOfEvents,
    StationsOfBytes,
}

/// The command that the words after the program's own name ask for.
pub fn parse(mut words: Args) -> Result<Command, Misuse>
    ensures { result ≡ parsed (into_iter_items words) }
{
    let Some(name) = words.next() else {
        return Err(Misuse::NoCommand);
    };
    match name.as_str() {
        "help" | "--help" | "-h" => help(words),
        "inspect" => Ok(Command::Inspect(source_in(words)?)),
        "nodes" => Ok(Command::Nodes(source_in(words)?)),
        "classes" => Ok(Command::Classes(cutting_in(words)?)),
        _ => Err(unknown(name)),
    }
}

fn help(words: Args) -> Result<Command, Misuse>
    ensures { result ≡ ended (into_iter_items words) Help }
{
    end(words)?;
    Ok(Command::Help)
}

/// The source that a command's own words name: one word at most, and with none standard input.
fn source_in(mut words: Args) -> Result<Source, Misuse>
    ensures { result ≡ sourced (into_iter_items words) }
{
    let source = match words.next() {
        Some(word) => Source::try_from(word)?,
        None => Source::Input,
    };
    end(words)?;
    Ok(source)
}

fn end(mut words: Args) -> Result<(), Misuse>
    ensures { result ≡ ended (into_iter_items words) tt }
{
    match words.next() {
        Some(word) => Err(Misuse::OneTooMany(word)),
        None => Ok(()),
    }
}

fn unknown(word: String) -> Misuse
    ensures { result ≡ unknown word }
{
    if is_option(word.as_str()) {
        Misuse::UnknownOption(word)
    } else {
        Misuse::UnknownCommand(word)
    }
}

fn is_option(word: &str) -> bool
    ensures { result ≡ is_option word.now }
{
    word.starts_with('-')
}
