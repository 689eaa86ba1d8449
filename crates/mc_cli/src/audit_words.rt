//! The arguments of `audit`.

ghost use Rattle.std.specs.Prelude.{◌≡◌, ℕ, List, map, is_none, IfErr, IfOk, IfSome, IsOk, IsSome};
ghost use Rattle.std.specs.List.{All};
ghost use Rattle.mc_text.specs.GroupRange.{IsGroupRange, range_text};
ghost use Rattle.mc_cli.specs.AuditWords.{AreAuditWords, AreRanges};
ghost use Rattle.mc_cli.specs.AuditDraft.{AreComplete, AreWholeWords};
ghost use Rattle.mc_cli.specs.AuditWords.{are_distinct, are_distinct_router_names};
ghost use Rattle.mc_cli.specs.AuditDraft.{IsComplete, IsWholeDraft};
ghost use Rattle.mc_cli.specs.AuditDraft.{given_of};
ghost use Rattle.mc_cli.specs.GivenWords.{is_among, is_value_expected};
ghost use Rattle.mc_cli.specs.declared.audit_words.AuditWords.{AuditWords};
ghost use Rattle.mc_cli.specs.declared.fault.WordsFault.TheVariants.{Memory};

use crate::audit_options::AuditOptions;
use crate::command::audit_command;
use crate::draft::{Draft, NextWord, draft_of};
use crate::fault::{FOLDER_RULE, WordsFault, refusal_explained_by_clap, usage_refusal};
use mc_text::GroupRange;
use mc_topology::is_name;
use std::alloc::{AllocError, Global};

/// The arguments of `audit`.
#[derive(Debug, Drop, PartialEq, Eq)]
pub struct AuditWords<'a> {
    /// The path of the folder; empty for the current directory. It never begins with `-`.
    pub folder: &'a str,
    /// The options.
    pub options: AuditOptions,
    /// The excluded routers, in the order of the words: valid names, each once.
    pub without: Vec<&'a str>,
    /// The ranges of groups whose wants are ignored, ascending, each once.
    pub ignored: Vec<GroupRange>,
}

const ROUTER_RULE: &str =
    "--without names a router: 1 to 32 letters, digits, -, _ or ., as in the topology";

const ONCE_RULE: &str = "--without names each router once";

const RANGE_RULE: &str =
    "--ignore takes a range of groups, as 239.0.0.0/8: an address and a length of \
4 to 32, with zeros behind it";

const RANGE_ONCE_RULE: &str = "--ignore takes each range once";

/// Whether the word is one of these.
fn is_among(word: &str, words: &[&str]) -> bool
    ensures { result ≡ is_among word.now (map (λ other. other.now) words.now) }
{
    words.contains(&word)
}

/// The rule that the first faulty word breaks: it isn't a router's name, or it is repeated after it.
fn broken_rule(words: &[&str]) -> Option<&'static str>
    ensures { is_none result ≡ are_distinct_router_names (map (λ word. word.now) words.now) }
{
    for at in 0..words.len() {
        if !is_name(words[at]) {
            return Some(ROUTER_RULE);
        }
        if is_among(words[at], words.split_at(at + 1).1) {
            return Some(ONCE_RULE);
        }
    }
    None
}

/// Whether the next word has to be the value of the option before it.
fn is_value_expected(next_word: NextWord) -> bool
    ensures { result ≡ is_value_expected next_word }
{
    match next_word {
        NextWord::Router | NextWord::Range => true,
        NextWord::Options | NextWord::FolderOnly => false,
    }
}

/// What the words give, before the ranges are read.
#[derive(Debug, Drop)]
struct WholeWords<'a> {
    folder: &'a str,
    options: AuditOptions,
    without: Vec<&'a str>,
    ignored: Vec<&'a str>,
}

/// What a draft of all words gives. None where the folder, a router or a range is missing.
fn complete_draft(draft: Draft<'_>) -> Option<WholeWords<'_>>
    ensures found { IfSome result (IsWholeDraft (given_of draft.entry)) }
    ensures only { IsComplete (given_of draft.entry) → IsSome result }
{
    if is_value_expected(draft.next_word) {
        return None;
    }
    let folder = draft.folder?;
    Some(WholeWords {
        folder,
        options: draft.options,
        without: draft.without,
        ignored: draft.ignored,
    })
}

/// What the words give. None where a word isn't valid or one is missing.
fn complete_words_of<'a>(
    alloc: Global,
    words: &[&'a str],
) -> Result<Option<WholeWords<'a>>, AllocError>
    ensures found { IfOk result (λ whole.
        IfSome whole (AreWholeWords (map (λ word. word.now) words.now))) }
    ensures only { AreComplete (map (λ word. word.now) words.now) → IfOk result IsSome }
{
    match draft_of(alloc, words)? {
        Some(draft) => Ok(complete_draft(draft)),
        None => Ok(None),
    }
}

/// The ranges that these words write. None where one of them writes none.
fn ranges_of(alloc: Global, words: &[&str]) -> Result<Option<Vec<GroupRange>>, AllocError>
    ensures found { IfOk result (λ found. IfSome found (λ ranges.
        (map (λ word. word.now) words.now ≡ map range_text ranges.items)
        × All IsGroupRange ranges.items)) }
    ensures only { (given : List (ℕ × ℕ)) → map (λ word. word.now) words.now ≡ map range_text given
        → All IsGroupRange given → IfOk result IsSome }
{
    let mut ranges = Vec::new(alloc);
    for word in words {
        let Some(range) = GroupRange::parse(word.as_bytes()) else {
            return Ok(None);
        };
        ranges.push(range)?;
    }
    Ok(Some(ranges))
}

/// Whether each word is there once.
fn are_distinct(words: &[&str]) -> bool
    ensures { result ≡ are_distinct (map (λ word. word.now) words.now) }
{
    for at in 0..words.len() {
        if is_among(words[at], words.split_at(at + 1).1) {
            return false;
        }
    }
    true
}

/// The ranges that the words behind `--ignore` write, ascending, or the rule that one breaks.
fn ignored_ranges(
    alloc: Global,
    words: &[&str],
) -> Result<Result<Vec<GroupRange>, &'static str>, AllocError>
    ensures found { IfOk result (λ found. IfOk found (λ ranges.
        AreRanges (map (λ word. word.now) words.now) ranges.items)) }
    ensures only { (ranges : List (ℕ × ℕ)) → AreRanges (map (λ word. word.now) words.now) ranges
        → IfOk result IsOk }
{
    let Some(mut ranges) = ranges_of(alloc, words)? else {
        return Ok(Err(RANGE_RULE));
    };
    if !are_distinct(words) {
        return Ok(Err(RANGE_ONCE_RULE));
    }
    ranges.sort_unstable();
    Ok(Ok(ranges))
}

/// The arguments that the words after `audit` give; `all` are all words of the program, for clap to
/// explain a fault.
///
/// # Errors
///
/// `Wrong` where the words break a rule, and `Memory` where memory runs out.
pub fn audit_words_of<'a>(
    alloc: Global,
    words: &[&'a str],
    all: &'a [&'a str],
) -> Result<AuditWords<'a>, WordsFault>
    ensures found { IfOk result (AreAuditWords (map (λ word. word.now) words.now)) }
    ensures only { (audit : AuditWords) → AreAuditWords (map (λ word. word.now) words.now) audit
        → IfErr result (λ fault. fault ≡ Memory) }
{
    let Some(whole) = complete_words_of(alloc, words)? else {
        return Err(refusal_explained_by_clap(alloc, all));
    };
    if whole.folder.starts_with('-') {
        return Err(usage_refusal(alloc, audit_command(alloc), FOLDER_RULE));
    }
    if let Some(rule) = broken_rule(&whole.without) {
        return Err(usage_refusal(alloc, audit_command(alloc), rule));
    }
    match ignored_ranges(alloc, &whole.ignored)? {
        Ok(ignored) => Ok(AuditWords {
            folder: whole.folder,
            options: whole.options,
            without: whole.without,
            ignored,
        }),
        Err(rule) => Err(usage_refusal(alloc, audit_command(alloc), rule)),
    }
}
