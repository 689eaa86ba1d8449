//! Reads a text in the form that `Certificate::to_json` writes, in one pass and without a tree of JSON
//! values. Every other text is left to the reader of JSON's tokens.

ghost use Rattle.std.specs.Prelude.{◌≡◌, ◌++◌, ◌<◌, ◌≤◌, ◌⊎◌, [], ◌∷◌, true, All, length, vec_len};
ghost use Rattle.std.specs.Prelude.{map, IfSome, IfOk};
ghost use Rattle.mc_text.specs.Addr.{dotted};
ghost use Rattle.mc_cert.specs.CertificateText.{flow_text, flow_texts, listed, tree_text};
ghost use Rattle.mc_cert.specs.Denotation.{DenotesCertificate};
ghost use Rattle.mc_cert.specs.Writable.{IsWritableTreeFor};

use crate::certificate::Certificate;
use crate::compact_entry::read_entry;
use crate::compact_names::LikelyNames;
use crate::entry::MAX_ENTRIES;
use crate::pieces::{after_prefix, read_number, read_until_quote};
use crate::reached::Reached;
use crate::version_two::MAX_TREES;
use mc_text::{Addr, MAX_TEXT};
use mc_topology::{Flow, Topology};
use std::alloc::{AllocError, AllocFailed, Global};

/// The text isn't in the form that `Certificate::to_json` writes, or memory ran out.
#[derive(Drop)]
pub(crate) struct NotCompact;

impl From<AllocError> for NotCompact {
    fn from(_refused: AllocError) -> NotCompact {
        NotCompact
    }
}

impl<T: Drop> From<AllocFailed<T>> for NotCompact {
    fn from(_refused: AllocFailed<T>) -> NotCompact {
        NotCompact
    }
}

/// The rest of the text after this address at its start; it begins with a quotation mark.
fn after_address<'a>(text: &'a [u8], address: Addr) -> Option<&'a [u8]>
    ensures { IfSome result (λ rest. text.now ≡ dotted address ++ rest.now) }
{
    let (word, rest) = read_until_quote(text)?;
    let found = Addr::parse_dotted(word.as_bytes())?;
    if found != address {
        return None;
    }
    Some(rest)
}

/// Reads a list of entries, and gives the rest of the text.
fn read_tree<'a>(
    alloc: Global,
    topology: &Topology,
    text: &'a [u8],
) -> Result<(Vec<Reached>, &'a [u8]), NotCompact>
    ensures text { IfOk result (λ parsed.
        text.now ≡ tree_text topology.now parsed.0.items ++ parsed.1.now) }
    ensures writable { IfOk result (λ parsed. IsWritableTreeFor topology.now parsed.0.items) }
{
    let Some(mut rest) = after_prefix(text, b"[") else {
        return Err(NotCompact);
    };
    let mut entries = Vec::new(alloc);
    let mut likely = LikelyNames::of_first();
    let mut separator: &[u8] = b"";
    for _number in 0..MAX_ENTRIES {
        if rest.starts_with(b"]") {
            break;
        }
        let Some(after) = after_prefix(rest, separator) else {
            return Err(NotCompact);
        };
        let Some((entry, after)) = read_entry(topology, &likely, after) else {
            return Err(NotCompact);
        };
        likely = likely.after(entry.lan, entry.forwarder);
        entries.push(entry)?;
        rest = after;
        separator = b",";
    }
    let Some(rest) = after_prefix(rest, b"]") else {
        return Err(NotCompact);
    };
    Ok((entries, rest))
}

/// Reads trees with commas between them, and gives the rest of the text.
fn read_trees<'a>(
    alloc: Global,
    topology: &Topology,
    text: &'a [u8],
) -> Result<(Vec<Vec<Reached>>, &'a [u8]), NotCompact>
    ensures text { IfOk result (λ parsed. text.now ≡
        listed (map (tree_text topology.now) (map (λ tree. tree.items) parsed.0.items))
        ++ parsed.1.now) }
    ensures writable { IfOk result (λ parsed.
        All (IsWritableTreeFor topology.now) (map (λ tree. tree.items) parsed.0.items)) }
    ensures few { IfOk result (λ parsed. vec_len parsed.0 ≤ 4096) }
{
    let mut rest = text;
    let mut trees = Vec::new(alloc);
    let mut separator: &[u8] = b"";
    for _number in 0..MAX_TREES {
        if rest.starts_with(b"]") {
            break;
        }
        let Some(after) = after_prefix(rest, separator) else {
            return Err(NotCompact);
        };
        let Ok((tree, after)) = read_tree(alloc, topology, after) else {
            return Err(NotCompact);
        };
        trees.push(tree)?;
        rest = after;
        separator = b",";
    }
    Ok((trees, rest))
}

/// Reads this flow and the number of its tree, and gives the number and the rest of the text.
fn read_flow<'a>(flow: &Flow, text: &'a [u8]) -> Option<(u32, &'a [u8])>
    ensures { IfSome result (λ parsed. text.now ≡ flow_text flow.now parsed.0 ++ parsed.1.now) }
{
    let rest = after_prefix(text, b"{\"group\":\"")?;
    let rest = after_address(rest, flow.group)?;
    let rest = after_prefix(rest, b"\",\"source\":\"")?;
    let rest = after_address(rest, flow.source)?;
    let rest = after_prefix(rest, b"\",\"tree\":")?;
    let (tree_no, rest) = read_number(rest)?;
    let rest = after_prefix(rest, b"}")?;
    Some((tree_no, rest))
}

/// Reads the flows of the topology with commas between them, and gives the numbers of their trees and
/// the rest of the text.
fn read_flows<'a>(
    alloc: Global,
    topology: &Topology,
    text: &'a [u8],
) -> Result<(Vec<u32>, &'a [u8]), NotCompact>
    ensures text { IfOk result (λ parsed. text.now ≡
        listed (flow_texts topology.now.flows parsed.0.items) ++ parsed.1.now) }
    ensures count { IfOk result (λ parsed. vec_len parsed.0 ≡ length topology.now.flows) }
{
    let mut rest = text;
    let mut tree_numbers = Vec::new(alloc);
    let mut separator: &[u8] = b"";
    for number in 0..topology.flows() {
        let Some(after) = after_prefix(rest, separator) else {
            return Err(NotCompact);
        };
        let Some((tree_no, after)) = read_flow(topology.flow(number), after) else {
            return Err(NotCompact);
        };
        tree_numbers.push(tree_no)?;
        rest = after;
        separator = b",";
    }
    Ok((tree_numbers, rest))
}

/// Whether each number is below the count.
pub(crate) fn are_below(numbers: &[u32], count: usize) -> bool
    ensures { result ≡ true → All (λ number. number < count) numbers.now }
{
    numbers.iter().all(|number| (*number as usize) < count)
}

/// Whether the rest of the text is nothing, or a line feed.
fn is_end(rest: &[u8]) -> bool
    ensures { result ≡ true → (rest.now ≡ []) ⊎ (rest.now ≡ 10 ∷ []) }
{
    match rest {
        [] | [b'\n'] => true,
        _ => false,
    }
}

/// Reads a certificate in this form, with or without a line feed at its end.
pub(crate) fn compact_certificate(
    alloc: Global,
    topology: &Topology,
    text: &[u8],
) -> Result<Certificate, NotCompact>
    ensures { IfOk result (DenotesCertificate topology.now text.now) }
{
    if text.len() > MAX_TEXT {
        return Err(NotCompact);
    }
    // This brings the topology's rules into the proof: its limits follow from them.
    let _rules = topology.flows();
    let Some(rest) = after_prefix(text, b"{\"flows\":[") else {
        return Err(NotCompact);
    };
    let Ok((tree_numbers, rest)) = read_flows(alloc, topology, rest) else {
        return Err(NotCompact);
    };
    let Some(rest) = after_prefix(rest, b"],\"trees\":[") else {
        return Err(NotCompact);
    };
    let Ok((trees, rest)) = read_trees(alloc, topology, rest) else {
        return Err(NotCompact);
    };
    let Some(rest) = after_prefix(rest, b"],\"version\":2}") else {
        return Err(NotCompact);
    };
    if !is_end(rest) || !are_below(&tree_numbers, trees.len()) {
        return Err(NotCompact);
    }
    Ok(Certificate::from_trees(trees, tree_numbers))
}
