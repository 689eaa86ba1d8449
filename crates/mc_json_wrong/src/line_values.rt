//! Lines as JSON values.

ghost use Rattle.std.specs.Prelude.{◌≡◌, ◌++◌, [], IfOk, OnOk, map};
ghost use Rattle.std.specs.String.{string_bytes};
ghost use Rattle.serde_json.specs.Data.{Data};
ghost use Rattle.serde_json.specs.View.{members_view, view as data_of};
ghost use Rattle.mc_lines.specs.Filled.{joined_sentences};
ghost use Rattle.mc_lines.specs.FlowContext.{flow_context};
ghost use Rattle.mc_lines.specs.GivenLines.{given_line, given_text, named_fact};
ghost use Rattle.mc_json_wrong.specs.LineData.{line_data, line_values, with_facts};

use crate::fact_value::fact_value;
use mc_lines::{Fact, LineContext, LineSink, push_sentences};
use mc_text::Memory;
use serde_json::{Map, Value, put};
use std::alloc::{AllocError, Global};

/// The values of lines.
#[derive(Drop)]
pub(crate) struct LineValues {
    alloc: Global,
    /// The values, in the lines' order.
    pub(crate) values: Vec<Value>,
}

impl LineValues {
    /// Those of no lines.
    pub(crate) fn new(alloc: Global) -> LineValues
        ensures { result.values.items ≡ [] }
    {
        LineValues {
            alloc,
            values: Vec::new(alloc),
        }
    }
}

/// Adds a member for each fact.
fn put_facts(
    alloc: Global,
    members: &mut Map<String, Value>,
    context: &LineContext<'_>,
    facts: &[(&str, Fact<'_>)],
) -> Result<(), AllocError>
    ensures { OnOk result (members_view members.new.entries ≡ with_facts (flow_context context.now)
        (map named_fact facts.now) (members_view members.old.entries)) }
{
    for (key, fact) in facts {
        put(members, alloc, key, fact_value(alloc, context, fact)?)?;
    }
    Ok(())
}

/// The sentences of a line.
fn sentences_text(
    alloc: Global,
    context: &LineContext<'_>,
    facts: &[(&str, Fact<'_>)],
    sentences: &[&str],
) -> Result<String, AllocError>
    ensures { IfOk result (λ text. string_bytes text ≡ joined_sentences (flow_context context.now)
        (map named_fact facts.now) (map given_text sentences.now)) }
{
    let mut text = String::new(alloc);
    push_sentences(&mut text, context, facts, sentences)?;
    Ok(text)
}

/// A line: its kind, its facts, and its sentences.
fn line_value(
    alloc: Global,
    context: &LineContext<'_>,
    kind: &str,
    sentences: &[&str],
    facts: &[(&str, Fact<'_>)],
) -> Result<Value, AllocError>
    ensures { IfOk result (λ value. data_of value
        ≡ line_data (flow_context context.now) (given_line kind.now sentences.now facts.now)) }
{
    let mut members = Map::new(alloc);
    let kind = Value::try_from_str(alloc, kind)?;
    put(&mut members, alloc, "kind", kind)?;
    put_facts(alloc, &mut members, context, facts)?;
    let text = sentences_text(alloc, context, facts, sentences)?;
    put(&mut members, alloc, "text", Value::String(text))?;
    Ok(Value::Object(members))
}

impl LineSink for LineValues {
    ghost Item = { Data };

    ghost items = { λ s. map data_of s.values.items };

    ghost items_of = { line_values };

    fn add_line(
        &mut self,
        context: &LineContext<'_>,
        kind: &str,
        sentences: &[&str],
        facts: &[(&str, Fact<'_>)],
    ) -> Result<(), Memory> {
        let value = line_value(self.alloc, context, kind, sentences, facts)?;
        self.values.push(value)?;
        Ok(())
    }
}
