//! Fills a sentence with facts.

ghost use Rattle.std.specs.Prelude.{◌≡◌, ◌++◌, OnOk, map};
ghost use Rattle.std.specs.String.{string_bytes};
ghost use Rattle.mc_lines.specs.Filled.{sentence_text, text_of_key};
ghost use Rattle.mc_lines.specs.FlowContext.{flow_context};
ghost use Rattle.mc_lines.specs.GivenLines.{named_fact};

use crate::context::LineContext;
use crate::facts::fact::Fact;
use crate::facts::fact_text::push_fact;
use std::alloc::AllocError;

/// Writes the fact with this key, or nothing if there is none.
fn push_fact_of_key(
    text: &mut String,
    context: &LineContext<'_>,
    facts: &[(&str, Fact<'_>)],
    key: &str,
) -> Result<(), AllocError>
    ensures { OnOk result (string_bytes text.new ≡ string_bytes text.old
        ++ text_of_key (flow_context context.now) (map named_fact facts.now) key.now) }
{
    for (own, fact) in facts {
        if *own == key {
            return push_fact(text, context, fact);
        }
    }
    Ok(())
}

/// Writes words.
fn push_words(text: &mut String, words: &str) -> Result<(), AllocError>
    ensures { OnOk result (string_bytes text.new ≡ string_bytes text.old ++ words.now) }
{
    text.push_str(words)
}

/// Writes a sentence, with each `{key}` replaced by the text of the fact with that key.
pub(crate) fn push_filled(
    text: &mut String,
    context: &LineContext<'_>,
    facts: &[(&str, Fact<'_>)],
    sentence: &str,
) -> Result<(), AllocError>
    ensures { OnOk result (string_bytes text.new ≡ string_bytes text.old
        ++ sentence_text (flow_context context.now) (map named_fact facts.now) sentence.now) }
{
    let mut rest = sentence;
    while let Some((words, behind)) = rest.split_once('{') {
        push_words(text, words)?;
        let Some((key, after)) = behind.split_once('}') else {
            return Ok(());
        };
        push_fact_of_key(text, context, facts, key)?;
        rest = after;
    }
    push_words(text, rest)
}
