//! What takes lines.

ghost use Rattle.std.specs.Prelude.{◌≡◌, ◌++◌, List, OnOk};
ghost use Rattle.mc_lines.specs.FlowContext.{FlowContext, flow_context};
ghost use Rattle.mc_lines.specs.Lines.{Line};
ghost use Rattle.mc_lines.specs.GivenLines.{given_line};

use crate::context::LineContext;
use crate::facts::fact::Fact;
use mc_text::Memory;

/// What takes lines, one after the other, as text or as values.
pub trait LineSink {
    // what it takes in for them, in order: the bytes of a text, or values
    ghost Item: { Type 0 };

    ghost items: { Self → List Item };

    // what a line adds
    ghost items_of: { FlowContext → Line → List Item };

    /// Adds a line of this kind: its sentences, a line of text each, in which `{key}` refers to the fact
    /// with that key, and its facts.
    ///
    /// # Errors
    ///
    /// `Memory` if an allocation fails.
    fn add_line(
        &mut self,
        context: &LineContext<'_>,
        kind: &str,
        sentences: &[&str],
        facts: &[(&str, Fact<'_>)],
    ) -> Result<(), Memory>
        ensures { OnOk result (items self.new ≡ items self.old
            ++ items_of (flow_context context.now) (given_line kind.now sentences.now facts.now)) };
}
