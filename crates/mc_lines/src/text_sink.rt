//! Lines as text: each sentence of a line is a line of text, after two spaces.

ghost use Rattle.std.specs.Prelude.{◌≡◌, ◌++◌, ℕ, OnOk, flat_map, map};
ghost use Rattle.std.specs.String.{string_bytes};
ghost use Rattle.mc_lines.specs.Filled.{indented_sentence, joined_sentences, line_text};
ghost use Rattle.mc_lines.specs.Filled.{sentence_after_feed};
ghost use Rattle.mc_lines.specs.FlowContext.{flow_context};
ghost use Rattle.mc_lines.specs.GivenLines.{given_text, named_fact};

use crate::context::LineContext;
use crate::facts::fact::Fact;
use crate::facts::fill::push_filled;
use crate::line_sink::LineSink;
use mc_text::Memory;
use std::alloc::AllocError;

/// Writes a sentence as a line, after these spaces.
fn push_indented(
    text: &mut String,
    indent: &str,
    context: &LineContext<'_>,
    facts: &[(&str, Fact<'_>)],
    sentence: &str,
) -> Result<(), AllocError>
    ensures { OnOk result (string_bytes text.new ≡ string_bytes text.old
        ++ indented_sentence indent.now (flow_context context.now) (map named_fact facts.now)
        sentence.now) }
{
    text.push_str(indent)?;
    push_filled(text, context, facts, sentence)?;
    text.push_str("\n")
}

/// Writes sentences, a line each, after these spaces.
pub(crate) fn push_each_indented(
    text: &mut String,
    indent: &str,
    context: &LineContext<'_>,
    facts: &[(&str, Fact<'_>)],
    sentences: &[&str],
) -> Result<(), AllocError>
    ensures { OnOk result (string_bytes text.new ≡ string_bytes text.old
        ++ flat_map (indented_sentence indent.now (flow_context context.now) (map named_fact facts.now))
        (map given_text sentences.now)) }
{
    for sentence in sentences {
        push_indented(text, indent, context, facts, sentence)?;
    }
    Ok(())
}

/// Writes a sentence after a line feed.
fn push_after_feed(
    text: &mut String,
    context: &LineContext<'_>,
    facts: &[(&str, Fact<'_>)],
    sentence: &str,
) -> Result<(), AllocError>
    ensures { OnOk result (string_bytes text.new ≡ string_bytes text.old
        ++ sentence_after_feed (flow_context context.now) (map named_fact facts.now) sentence.now) }
{
    text.push_str("\n")?;
    push_filled(text, context, facts, sentence)
}

/// Writes sentences, each after a line feed.
fn push_each_after_feed(
    text: &mut String,
    context: &LineContext<'_>,
    facts: &[(&str, Fact<'_>)],
    sentences: &[&str],
) -> Result<(), AllocError>
    ensures { OnOk result (string_bytes text.new ≡ string_bytes text.old
        ++ flat_map (sentence_after_feed (flow_context context.now) (map named_fact facts.now))
        (map given_text sentences.now)) }
{
    for sentence in sentences {
        push_after_feed(text, context, facts, sentence)?;
    }
    Ok(())
}

/// Writes the sentences of a line, without the spaces in front, and with line feeds between them.
///
/// # Errors
///
/// `AllocError` if an allocation fails.
pub fn push_sentences(
    text: &mut String,
    context: &LineContext<'_>,
    facts: &[(&str, Fact<'_>)],
    sentences: &[&str],
) -> Result<(), AllocError>
    ensures { OnOk result (string_bytes text.new ≡ string_bytes text.old
        ++ joined_sentences (flow_context context.now) (map named_fact facts.now)
        (map given_text sentences.now)) }
{
    let Some((first, more)) = sentences.split_first() else {
        return Ok(());
    };
    push_filled(text, context, facts, first)?;
    push_each_after_feed(text, context, facts, more)
}

impl LineSink for String {
    ghost Item = { ℕ };

    ghost items = { string_bytes };

    ghost items_of = { line_text };

    fn add_line(
        &mut self,
        context: &LineContext<'_>,
        _kind: &str,
        sentences: &[&str],
        facts: &[(&str, Fact<'_>)],
    ) -> Result<(), Memory> {
        push_each_indented(self, "  ", context, facts, sentences)?;
        Ok(())
    }
}
