//! What can go wrong, and the lines on standard error that say it.
ghost use Rattle.std.specs.Prelude.{Some};
ghost use Rattle.wafulexi.specs.Sayings.{misuse_text, source_text};

use crate::usage::USAGE;
use crate::words::{Misuse, Source};
use refusals::Refusal;
use std::alloc::AllocError;
use std::{fmt, io};
use wording::Wording;

/// Why the program ends with status 1.
#[derive(Drop)]
pub enum Failure {
    /// The words of the command line could not be had.
    Words(io::Error),
    Misuse(Misuse),
    Unreadable(Source, io::Error),
    Refused(Refusal),
    /// A rule text was refused at a place in it; the text here shows the place.
    Misread(Refusal, String),
    Unwritten(io::Error),
    Memory,
}

impl From<Misuse> for Failure {
    fn from(misuse: Misuse) -> Failure {
        Failure::Misuse(misuse)
    }
}

impl From<Refusal> for Failure {
    fn from(refusal: Refusal) -> Failure {
        Failure::Refused(refusal)
    }
}

impl From<AllocError> for Failure {
    fn from(_error: AllocError) -> Failure {
        Failure::Memory
    }
}

impl fmt::Display for Failure {
    fn fmt<W: fmt::Write>(&self, f: &mut fmt::Formatter<W>) -> fmt::Result {
        match self {
            Failure::Words(error) => write!(f, "cannot read the command line as UTF-8: {error}"),
            Failure::Misuse(misuse) => write!(f, "{misuse}\n{USAGE}"),
            Failure::Unreadable(source, error) => write!(f, "cannot read {source}: {error}"),
            Failure::Refused(refusal) => write!(f, "{}", Wording(*refusal)),
            Failure::Misread(refusal, excerpt) => write!(f, "{}\n{excerpt}", Wording(*refusal)),
            Failure::Unwritten(error) => write!(f, "cannot write standard output: {error}"),
            Failure::Memory => f.write_str("there is not enough memory"),
        }
    }
}

impl fmt::Display for Misuse {
    ghost output = { λ misuse. Some (misuse_text misuse) };

    fn fmt<W: fmt::Write>(&self, f: &mut fmt::Formatter<W>) -> fmt::Result {
        match self {
            Misuse::NoCommand => f.write_str("no command is given"),
            Misuse::UnknownCommand(word) => write!(f, "unknown command: {word}"),
            Misuse::UnknownOption(word) => write!(f, "unknown option: {word}"),
            Misuse::OneTooMany(word) => write!(f, "one word too many: {word}"),
            Misuse::Twice(word) => write!(f, "given twice: {word}"),
            Misuse::Unfinished(word) => write!(f, "a word has to follow: {word}"),
            Misuse::NotEightDigits(word) => write!(f, "not eight digits: {word}"),
            Misuse::FoldOfEvents => f.write_str("--fold is for bytes, not for events"),
            Misuse::StationsOfBytes => f.write_str("--stations is for events, not for bytes"),
        }
    }
}

impl fmt::Display for Source {
    ghost output = { λ source. Some (source_text source) };

    fn fmt<W: fmt::Write>(&self, f: &mut fmt::Formatter<W>) -> fmt::Result {
        match self {
            Source::Input => f.write_str("standard input"),
            Source::File(name) => f.write_str(name),
        }
    }
}
