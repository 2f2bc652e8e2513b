//! The questions that the library asks of what it is given, and the refusal that a no makes.
#![tactic(auto)]

ghost use Rattle.std.specs.Prelude.{◌≡◌, Some};
ghost use Rattle.refusals.specs.Questions.{numbered, layered, refusing, worded, shown_number, shown};

use std::error::Error;
use std::fmt;

/// Which part of the work asks a question.
#[derive(Clone, Copy, PartialEq, Eq, Debug)]
pub enum Layer {
    Text,
    Pool,
    Alphabet,
    Build,
    File,
    Run,
}

/// A question with a yes and a no; a no is a refusal. Its number is the one that technicians see.
#[derive(Clone, Copy, PartialEq, Eq, Debug)]
pub enum Question {
    TextLength = 1,
    ReadingRoom = 2,
    TokenStart = 3,
    BracketClosed = 4,
    GrammarAllows = 5,
    LevelsOpen = 6,
    AtomCount = 7,
    NodeRoom = 8,
    EventRange = 9,
    AtomEntry = 10,
    AtomForm = 11,
    AtomOrder = 12,
    ClassCount = 13,
    StationOrder = 14,
    PoolSound = 20,
    BuildRoom = 21,
    RowRoom = 22,
    FileLength = 30,
    FileVersion = 31,
    FileFields = 32,
    TableLength = 33,
    ScratchRoom = 34,
    TargetInTable = 35,
    MarkWorkedOut = 36,
    RunAlphabet = 40,
    ClassInFile = 41,
    RunLength = 42,
}

impl Question {
    /// The number under which docs/REFUSALS.md lists the question.
    pub fn number(self) -> u8
        ensures { result ≡ numbered self }
    {
        self as u8
    }

    /// A no to the question, at a place.
    pub fn at(self, place: usize) -> Refusal
        ensures { result ≡ refusing self place }
    {
        Refusal {
            question: self,
            place,
        }
    }

    /// The part of the work that asks the question.
    pub fn layer(self) -> Layer
        ensures { result ≡ layered self }
    {
        match self {
            Question::TextLength
            | Question::ReadingRoom
            | Question::TokenStart
            | Question::BracketClosed
            | Question::GrammarAllows
            | Question::LevelsOpen
            | Question::AtomCount => Layer::Text,
            Question::NodeRoom => Layer::Pool,
            Question::EventRange
            | Question::AtomEntry
            | Question::AtomForm
            | Question::AtomOrder
            | Question::ClassCount
            | Question::StationOrder => Layer::Alphabet,
            Question::PoolSound | Question::BuildRoom | Question::RowRoom => Layer::Build,
            Question::FileLength
            | Question::FileVersion
            | Question::FileFields
            | Question::TableLength
            | Question::ScratchRoom
            | Question::TargetInTable
            | Question::MarkWorkedOut => Layer::File,
            Question::RunAlphabet | Question::ClassInFile | Question::RunLength => Layer::Run,
        }
    }
}

/// A question answered with no, and where. The place is whatever the question speaks of: a byte's place, a count, a
/// size, so it is as wide as a slice can be long.
#[derive(Clone, Copy, PartialEq, Eq, Debug)]
pub struct Refusal {
    pub question: Question,
    pub place: usize,
}

/// The layer's word.
impl fmt::Display for Layer {
    ghost output = { λ l. Some (worded l) };

    fn fmt<W: fmt::Write>(&self, f: &mut fmt::Formatter<W>) -> fmt::Result {
        f.write_str(match self {
            Layer::Text => "text",
            Layer::Pool => "pool",
            Layer::Alphabet => "alphabet",
            Layer::Build => "build",
            Layer::File => "file",
            Layer::Run => "run",
        })
    }
}

/// The question's number.
impl fmt::Display for Question {
    ghost output = { λ q. Some (shown_number q) };

    fn fmt<W: fmt::Write>(&self, f: &mut fmt::Formatter<W>) -> fmt::Result {
        write!(f, "{}", self.number())
    }
}

/// The number and the place; `wording` says the same in sentences.
impl fmt::Display for Refusal {
    ghost output = { λ r. Some (shown r) };

    fn fmt<W: fmt::Write>(&self, f: &mut fmt::Formatter<W>) -> fmt::Result {
        write!(f, "{} at {}", self.question, self.place)
    }
}

impl Error for Refusal {}
