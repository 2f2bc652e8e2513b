//! Stars behind a base.
ghost use Rattle.std.specs.Prelude.{◌≡◌};
ghost use Rattle.grammar.specs.Grammar.{starred};
ghost use Rattle.passes.specs.Going.{GrownFrom};

use crate::part::Part;
use crate::sink::Sink;
use crate::walk::Walk;
use grammar::Token;
use nodes::Form;
use refusals::Refusal;
use surveys::advance;

impl<'r, 't> Walk<'r, 't> {
    /// Goes on from a base as long as stars follow.
    pub(crate) fn stars<S: Sink>(self, sink: &mut S, node: u16) -> Result<Part<'t>, Refusal>
        ensures grown { GrownFrom S.step self.entry starred node (S.pool sink.old) result (S.pool sink.new) }
        ensures lent { S.memory sink.new ≡ S.memory sink.old }
    {
        let mut part = Part {
            node,
            next: self.first,
        };
        while let Token::Asterisk = part.next.token {
            let next = advance(self.reader, part.next.after)?;
            let node = sink.put(Form::Star(part.node))?;
            part = Part { node, next };
        }
        Ok(part)
    }
}
