//! Writes the lines before those of the flows in an audit's text: in JSON the domain and the words of the
//! call.

ghost use Rattle.std.specs.Prelude.{◌≡◌, ◌++◌, IfOk, OnOk, flat_map, map};
ghost use Rattle.std.specs.String.{string_bytes};
ghost use Rattle.mc_forward.specs.ListedTables.{facts};
ghost use Rattle.mc_run.specs.AuditBegin.{begin_lines, ignore_words, option_words, without_words};
ghost use Rattle.mc_run.specs.AuditBegin.{word_if_asked};

use crate::audit::audited_domain::AuditedDomain;
use mc_cli::{
    AuditOptions, FAULTS_WORD, IGNORE_WORD, JSON_WORD, STRICT_WORD, TRAVEL_WORD, UNLISTED_WORD,
    WITHOUT_WORD,
};
use mc_json::push_domain_line;
use mc_shown::list_excluded_routers;
use mc_text::{GroupRange, Memory};
use mc_topology::{RouterNo, Topology};
use std::alloc::Global;

/// Adds the word of an option, if the option is set.
fn push_option_word(
    alloc: Global,
    words: &mut Vec<String>,
    asked: bool,
    word: &str,
) -> Result<(), Memory>
    ensures { OnOk result (map string_bytes words.new.items
        ≡ map string_bytes words.old.items ++ word_if_asked asked word.now) }
{
    if asked {
        words.push(String::from_str(alloc, word)?)?;
    }
    Ok(())
}

/// Adds the two words that exclude a router.
fn push_without_words(
    alloc: Global,
    words: &mut Vec<String>,
    topology: &Topology,
    router: RouterNo,
) -> Result<(), Memory>
    ensures { OnOk result (map string_bytes words.new.items
        ≡ map string_bytes words.old.items ++ without_words topology.now router) }
{
    words.push(String::from_str(alloc, WITHOUT_WORD)?)?;
    let name = topology.router_name_or_empty(router);
    words.push(String::from_str(alloc, name)?)?;
    Ok(())
}

/// Adds the words that exclude these routers.
fn push_all_without_words(
    alloc: Global,
    words: &mut Vec<String>,
    topology: &Topology,
    routers: &[RouterNo],
) -> Result<(), Memory>
    ensures { OnOk result (map string_bytes words.new.items ≡ map string_bytes words.old.items
        ++ flat_map (without_words topology.now) routers.now) }
{
    for router in routers {
        push_without_words(alloc, words, topology, *router)?;
    }
    Ok(())
}

/// Adds the two words that leave a range of groups aside.
fn push_ignore_words(
    alloc: Global,
    words: &mut Vec<String>,
    range: GroupRange,
) -> Result<(), Memory>
    ensures { OnOk result (map string_bytes words.new.items
        ≡ map string_bytes words.old.items ++ ignore_words range) }
{
    words.push(String::from_str(alloc, IGNORE_WORD)?)?;
    words.push(format!(in alloc; "{range}")?)?;
    Ok(())
}

/// Adds the words that leave these ranges of groups aside.
fn push_all_ignore_words(
    alloc: Global,
    words: &mut Vec<String>,
    ranges: &[GroupRange],
) -> Result<(), Memory>
    ensures { OnOk result (map string_bytes words.new.items
        ≡ map string_bytes words.old.items ++ flat_map ignore_words ranges.now) }
{
    for range in ranges {
        push_ignore_words(alloc, words, *range)?;
    }
    Ok(())
}

/// The words of a call with these options that excludes the marked routers and leaves these ranges aside.
fn option_words(
    alloc: Global,
    topology: &Topology,
    options: AuditOptions,
    excluded: &[bool],
    ignored: &[GroupRange],
) -> Result<Vec<String>, Memory>
    ensures { IfOk result (λ words.
        map string_bytes words.items ≡ option_words options topology.now excluded.now ignored.now) }
{
    let mut words = Vec::new(alloc);
    push_option_word(alloc, &mut words, options.travels, TRAVEL_WORD)?;
    push_option_word(alloc, &mut words, options.faults, FAULTS_WORD)?;
    push_option_word(alloc, &mut words, options.unlisted, UNLISTED_WORD)?;
    push_option_word(alloc, &mut words, options.strict, STRICT_WORD)?;
    push_option_word(alloc, &mut words, options.json, JSON_WORD)?;
    let routers = list_excluded_routers(alloc, topology, excluded)?;
    push_all_without_words(alloc, &mut words, topology, &routers)?;
    push_all_ignore_words(alloc, &mut words, ignored)?;
    Ok(words)
}

/// The begin of the text: in JSON a line with the domain and the words of the call, else nothing.
pub(crate) fn begin_lines(alloc: Global, audited: &AuditedDomain<'_>) -> Result<String, Memory>
    ensures { IfOk result (λ text. string_bytes text ≡ begin_lines audited.now.options
        (facts audited.now.domain.now) audited.now.excluded.now audited.now.ignored.now) }
{
    let options = audited.options;
    let mut text = String::new(alloc);
    if options.json {
        let topology = audited.domain.topology();
        let words = option_words(alloc, topology, options, audited.excluded, audited.ignored)?;
        push_domain_line(alloc, &mut text, audited.domain, &words)?;
    }
    Ok(text)
}
