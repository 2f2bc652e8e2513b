//! The readers of the forms, which call one another. Forms that group to the left are read by loops, so that calls nest
//! only as deep as levels are open.
ghost use Rattle.std.specs.Prelude.{◌≡◌};
ghost use Rattle.grammar.specs.declared.token.Token.TheVariants.{Opening};
ghost use Rattle.grammar.specs.Grammar.{bases, prefixes, starred};
ghost use Rattle.passes.specs.Going.{GoesFrom, GrownFrom};
ghost use Rattle.passes.specs.Passing.{level_of, tighter};

use crate::binary::Binary;
use crate::entering::leaf;
use crate::part::Part;
use crate::sink::Sink;
use crate::walk::Walk;
use grammar::Token;
use nodes::Form;
use refusals::{Question, Refusal};
use surveys::advance;

impl<'r, 't> Walk<'r, 't> {
    /// Operands with the signs of a form of two operands between them.
    #[cycle(readers)]
    pub(crate) fn group<S: Sink>(self, sink: &mut S, binary: Binary) -> Result<Part<'t>, Refusal>
        ensures goes { GoesFrom S.step self.entry (level_of binary) (S.pool sink.old) result (S.pool sink.new) }
        ensures lent { S.memory sink.new ≡ S.memory sink.old }
    {
        let left = self.operand(sink, binary)?;
        self.at(left.next).grow(sink, binary, left.node)
    }

    /// Goes on from the left operand as long as others follow.
    #[cycle(readers)]
    fn grow<S: Sink>(self, sink: &mut S, binary: Binary, node: u16) -> Result<Part<'t>, Refusal>
        ensures grown { GrownFrom S.step self.entry (level_of binary) node (S.pool sink.old) result (S.pool sink.new) }
        ensures lent { S.memory sink.new ≡ S.memory sink.old }
    {
        let mut part = Part {
            node,
            next: self.first,
        };
        while binary.joins(part.next.token) {
            let first = binary.start(self.reader, part.next)?;
            let right = self.at(first).operand(sink, binary)?;
            let node = sink.put(binary.form(part.node, right.node))?;
            part = Part { node, ..right };
        }
        Ok(part)
    }

    /// An operand: a form that binds tighter.
    #[cycle(readers)]
    fn operand<S: Sink>(self, sink: &mut S, binary: Binary) -> Result<Part<'t>, Refusal>
        ensures goes { GoesFrom S.step self.entry (tighter binary) (S.pool sink.old) result (S.pool sink.new) }
        ensures lent { S.memory sink.new ≡ S.memory sink.old }
    {
        match binary {
            Binary::Or => self.group(sink, Binary::And),
            Binary::And => self.group(sink, Binary::Sequence),
            Binary::Sequence => self.prefix(sink),
        }
    }

    /// Signs `!` and then a base with its stars.
    #[cycle(readers)]
    fn prefix<S: Sink>(self, sink: &mut S) -> Result<Part<'t>, Refusal>
        ensures goes { GoesFrom S.step self.entry prefixes (S.pool sink.old) result (S.pool sink.new) }
        ensures lent { S.memory sink.new ≡ S.memory sink.old }
    {
        let Token::Bang = self.first.token else {
            return self.repeated(sink);
        };
        let part = self.inside()?.prefix(sink)?;
        let node = sink.put(Form::Not(part.node))?;
        Ok(Part { node, ..part })
    }

    /// A base with its stars.
    #[cycle(readers)]
    fn repeated<S: Sink>(self, sink: &mut S) -> Result<Part<'t>, Refusal>
        ensures goes { GoesFrom S.step self.entry starred (S.pool sink.old) result (S.pool sink.new) }
        ensures lent { S.memory sink.new ≡ S.memory sink.old }
    {
        let part = self.base(sink)?;
        self.at(part.next).stars(sink, part.node)
    }

    /// A form of one token, or one in parentheses.
    #[cycle(readers)]
    fn base<S: Sink>(self, sink: &mut S) -> Result<Part<'t>, Refusal>
        ensures goes { GoesFrom S.step self.entry bases (S.pool sink.old) result (S.pool sink.new) }
        ensures lent { S.memory sink.new ≡ S.memory sink.old }
    {
        if let Token::Opening = self.first.token {
            return self.enclosed(sink);
        }
        match leaf(self.reader, self.first.token) {
            Some(form) => self.single(sink, form),
            None => Err(Question::GrammarAllows.at(self.first.place)),
        }
    }

    /// A form in parentheses, from its `(` on.
    #[cycle(readers)]
    fn enclosed<S: Sink>(self, sink: &mut S) -> Result<Part<'t>, Refusal>
        requires { self.first.token ≡ Opening }
        ensures goes { GoesFrom S.step self.entry bases (S.pool sink.old) result (S.pool sink.new) }
        ensures lent { S.memory sink.new ≡ S.memory sink.old }
    {
        let part = self.inside()?.group(sink, Binary::Or)?;
        let Token::Closing = part.next.token else {
            return Err(Question::GrammarAllows.at(part.next.place));
        };
        let next = advance(self.reader, part.next.after)?;
        Ok(Part { next, ..part })
    }
}
