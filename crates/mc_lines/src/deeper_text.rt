//! Lines as text that explain an indented line: each sentence is a line, after four spaces.

ghost use Rattle.std.specs.Prelude.{ℕ};
ghost use Rattle.std.specs.String.{string_bytes};
ghost use Rattle.mc_lines.specs.Filled.{deeper_line_text};

use crate::context::LineContext;
use crate::facts::fact::Fact;
use crate::line_sink::LineSink;
use crate::text_sink::push_each_indented;
use mc_text::Memory;

/// A text that takes lines after four spaces.
#[derive(Drop)]
pub(crate) struct DeeperText {
    /// The text.
    pub(crate) text: String,
}

impl LineSink for DeeperText {
    ghost Item = { ℕ };

    ghost items = { λ sink. string_bytes sink.text };

    ghost items_of = { deeper_line_text };

    fn add_line(
        &mut self,
        context: &LineContext<'_>,
        _kind: &str,
        sentences: &[&str],
        facts: &[(&str, Fact<'_>)],
    ) -> Result<(), Memory> {
        push_each_indented(&mut self.text, "    ", context, facts, sentences)?;
        Ok(())
    }
}
