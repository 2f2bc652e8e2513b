//! What a refusal says to a technician, on one line.
#![tactic(auto)]

ghost use Rattle.std.specs.Prelude.{◌≡◌, Some};
ghost use Rattle.wording.specs.Wording.{field_sentences, sentences, line, Sentence};

use refusals::{Question, Refusal};
use std::fmt;

/// A refusal as text: its number, place and layer, what is wrong, and what was expected.
#[derive(Drop)]
pub struct Wording(pub Refusal);

impl fmt::Display for Wording {
    ghost output = { λ w. Some (line w.0) };

    fn fmt<W: fmt::Write>(&self, f: &mut fmt::Formatter<W>) -> fmt::Result {
        let Refusal { question, place } = self.0;
        let layer = question.layer();
        let wrong = wrong(question, place);
        let expected = expected(question, place);
        write!(
            f,
            "refused {} ({layer}): {wrong}; expected {expected}",
            self.0
        )
    }
}

/// What is wrong where a question is answered with no.
fn wrong(question: Question, place: usize) -> &'static str
    ensures value { result.now ≡ (sentences question place).0 }
    ensures sentence { Sentence result.now }
{
    match question {
        Question::TextLength => "the rule text is empty or too long",
        Question::ReadingRoom => "the pool or the atom list has the wrong size",
        Question::TokenStart => "no token begins with this byte",
        Question::BracketClosed => "this bracket is not closed",
        Question::GrammarAllows => "the rule cannot go on like this, or end here",
        Question::LevelsOpen => "too many levels are open here",
        Question::AtomCount => "the rule has too many atoms",
        Question::NodeRoom => "the rule needs more nodes than there is room for",
        Question::EventRange => "the event's code or station is out of range",
        Question::AtomEntry => "the atom is not in the list, or its part is not in the text",
        Question::AtomForm => "the atom does not have its form",
        Question::AtomOrder => "the atom's first is above its last",
        Question::ClassCount => "the atoms make too many classes",
        Question::StationOrder => "a station is out of range, or stands in the order twice",
        Question::PoolSound => "the pool, its count, its root or a node is not sound",
        Question::BuildRoom => "the text, the row limit or a buffer has the wrong size",
        Question::RowRoom => "the rule needs more rows than the limit allows",
        Question::FileLength => "the file is too short, or does not have the length that it says",
        Question::FileVersion => "the file's version is unknown",
        Question::FileFields => wrong_field(place),
        Question::TableLength => "the table is not as long as the header says",
        Question::ScratchRoom => "the scratch is too short",
        Question::TargetInTable => "this target is not a row",
        Question::MarkWorkedOut => "this mark is not the one worked out",
        Question::RunAlphabet => "the alphabet is not the file's",
        Question::ClassInFile => "the file does not have this class",
        Question::RunLength => "the run is too long",
    }
}

/// What a yes would have needed.
fn expected(question: Question, place: usize) -> &'static str
    ensures value { result.now ≡ (sentences question place).1 }
    ensures sentence { Sentence result.now }
{
    match question {
        Question::TextLength => "1 to 4096 bytes",
        Question::ReadingRoom => "a pool of 4 to 4096 nodes and room for 32 atoms",
        Question::TokenStart => "a byte that can begin a token",
        Question::BracketClosed => "its closing bracket",
        Question::GrammarAllows => "a token, or the end, that the grammar allows here",
        Question::LevelsOpen => "at most 32 levels",
        Question::AtomCount => "at most 32 atoms",
        Question::NodeRoom => "a node of the pool, or room for one more",
        Question::EventRange => "a code from 0 to 15 and a station from 0 to 7",
        Question::AtomEntry => "a number below 32, with an entry whose part lies in the text",
        Question::AtomForm => "the form that the alphabet gives its atoms",
        Question::AtomOrder => "a first that is at most the last",
        Question::ClassCount => "at most 255 classes",
        Question::StationOrder => "entries below 8, none of them twice",
        Question::PoolSound => "4 to 4096 nodes, a count of 4 to all, a root below it, sound nodes",
        Question::BuildRoom => "1 to 4096 bytes, 1 to 1024 rows, and buffers that are long enough",
        Question::RowRoom => "a row of the table, or room for one more",
        Question::FileLength => "11 bytes or more, and their number in bytes 0 to 3",
        Question::FileVersion => "version 1",
        Question::FileFields => expected_field(place),
        Question::TableLength => "11 + text + rows x (1 + 2 x classes) bytes in all",
        Question::ScratchRoom => "a byte for each row",
        Question::TargetInTable => "a number below the row count",
        Question::MarkWorkedOut => "the mark that follows from which rows accept",
        Question::RunAlphabet => "the kind and the class count of the file",
        Question::ClassInFile => "a class below the file's class count",
        Question::RunLength => "at most 1000000 letters",
    }
}

fn wrong_field(place: usize) -> &'static str
    ensures value { result.now ≡ (field_sentences place).0 }
    ensures sentence { Sentence result.now }
{
    match place {
        5 => "the kind is unknown",
        6 => "the row count is out of range",
        8 => "there are no classes",
        _ => "the text length is out of range",
    }
}

fn expected_field(place: usize) -> &'static str
    ensures value { result.now ≡ (field_sentences place).1 }
    ensures sentence { Sentence result.now }
{
    match place {
        5 => "kind 1, bytes, or kind 2, bench events",
        6 => "1 to 1024 rows",
        8 => "1 to 255 classes",
        _ => "1 to 4096 bytes",
    }
}

#[cfg(test)]
mod tests {
    use super::*;
    use std::alloc::Global;
    use std::process::Abort;
    use std::test::Fail;

    fn told(
        rt: &impl Abort,
        heap: Global,
        question: Question,
        place: usize,
        line: &str,
    ) -> Result<(), Fail> {
        assert!(rt; Wording(question.at(place)).to_string(heap)?.as_str() == line);
        Ok(())
    }

    #[test]
    fn refusals_of_a_file(rt: HostRuntime) -> Result<(), Fail> {
        let heap = rt.alloc();
        told(
            &rt,
            heap,
            Question::FileVersion,
            4,
            "refused 31 at 4 (file): the file's version is unknown; expected version 1",
        )?;
        told(
            &rt,
            heap,
            Question::FileFields,
            5,
            "refused 32 at 5 (file): the kind is unknown; expected kind 1, bytes, or kind 2, bench events",
        )?;
        told(
            &rt,
            heap,
            Question::FileFields,
            6,
            "refused 32 at 6 (file): the row count is out of range; expected 1 to 1024 rows",
        )?;
        told(
            &rt,
            heap,
            Question::TableLength,
            6,
            "refused 33 at 6 (file): the table is not as long as the header says; expected 11 + text + rows x (1 + 2 x classes) bytes in all",
        )?;
        told(
            &rt,
            heap,
            Question::TargetInTable,
            29,
            "refused 35 at 29 (file): this target is not a row; expected a number below the row count",
        )
    }

    // A place may be as large as a `usize`, and no part of it is lost.
    #[test]
    fn places_are_whole(rt: HostRuntime) -> Result<(), Fail> {
        told(
            &rt,
            rt.alloc(),
            Question::NodeRoom,
            usize::MAX,
            "refused 8 at 18446744073709551615 (pool): the rule needs more nodes than there is room for; expected a node of the pool, or room for one more",
        )
    }
}
