//! The task that a command line asks for.

ghost use Rattle.std.specs.Prelude.{◌≡◌, ◌↔◌, IsTrue, IfErr, IfOk, Ok, drop, is_some, map, true};
ghost use Rattle.mc_cli.specs.Task.{AskForVersion, IsAllowed, IsAskedFor, IsAuditFor, IsFirstWord, IsHelp};
ghost use Rattle.mc_cli.specs.Task.{is_topic};
ghost use Rattle.mc_cli.specs.declared.task.Task.{Task};
ghost use Rattle.mc_cli.specs.declared.fault.WordsFault.TheVariants.{Memory};

use crate::audit_words::{AuditWords, audit_words_of};
use crate::command::{command_named, program};
use crate::command_task::clap_task;
use crate::fault::{WordsFault, usage_refusal};
use clap::Command;
use mc_text::Addr;
use std::alloc::{AllocError, Global};

/// What the program is asked to do.
#[derive(Debug, Drop, PartialEq, Eq)]
pub enum Task<'a> {
    /// Whether the LAN whose reports are read wants what the source sends to the group.
    Wants {
        /// 224.0.1.0 to 239.255.255.255.
        group: Addr,
        /// An address whose first octet is 1 to 223 and not 127.
        source: Addr,
    },
    /// Whether a bundle's certificate proves that every listed flow of its domain is right.
    Check,
    /// The certificate of a bundle's domain, or what is wrong with each flow that has none.
    Make,
    /// The travel of one packet through a bundle's domain.
    Replay {
        /// The number of the packet's flow, 1 to 4,096, in the order of the topology.
        flow: u32,
        /// The packet's time to live, 1 to 255.
        ttl: u8,
        /// Whether the last waiting copy is always handled next, rather than the first.
        last: bool,
    },
    /// The bundle of a folder's files.
    Pack {
        /// The path of the folder; empty for the current directory.
        folder: &'a str,
        /// Whether the bundle has the file `certificate` too.
        certificate: bool,
    },
    /// Which flows of the domain in a folder's files have a certificate, and what is wrong with each
    /// other one.
    Audit(AuditWords<'a>),
    /// The help text of the program or of one of its commands.
    Help(String),
    /// The version of the program.
    Version,
}

/// The words from this index on, if any.
fn words_from<'a>(words: &'a [&'a str], place: usize) -> &'a [&'a str]
    ensures { map (λ word. word.now) result.now ≡ drop place (map (λ word. word.now) words.now) }
{
    if words.len() < place {
        return &[];
    }
    words.split_at(place).1
}

/// The task of the words after `audit`.
fn audit_task<'a>(alloc: Global, words: &'a [&'a str]) -> Result<Task<'a>, WordsFault>
    ensures allowed { IfOk result IsAllowed }
    ensures found { IfOk result (IsAuditFor (drop 2 (map (λ word. word.now) words.now))) }
    ensures only { (task : Task) → IsAuditFor (drop 2 (map (λ word. word.now) words.now)) task
        → IfErr result (λ fault. fault ≡ Memory) }
{
    Ok(Task::Audit(audit_words_of(alloc, words_from(words, 2), words)?))
}

/// The rule for the words after `help`.
const HELP_RULE: &str =
    "help takes no word or a command's name: audit, check, make, pack, replay or wants";

/// The command whose help the words after `help` ask for: the one that they name, or the program.
fn topic_of<'a>(alloc: Global, words: &[&str]) -> Option<Result<Command<'a>, AllocError>>
    ensures { is_some result ≡ is_topic (map (λ word. word.now) words.now) }
{
    match words.len() {
        0 => Some(program(alloc)),
        1 => command_named(alloc, words[0]),
        _ => None,
    }
}

/// The text of a command's help.
fn help_text(command: Result<Command<'_>, AllocError>) -> Result<String, AllocError> {
    let mut command = command?;
    command.render_help()
}

/// The task of the words after `help`.
fn help_task<'a>(alloc: Global, words: &'a [&'a str]) -> Result<Task<'a>, WordsFault>
    ensures allowed { IfOk result IsAllowed }
    ensures found { IfOk result (λ task. IsHelp task
        × (is_topic (drop 2 (map (λ word. word.now) words.now)) ≡ true)) }
    ensures only { is_topic (drop 2 (map (λ word. word.now) words.now)) ≡ true
        → IfErr result (λ fault. fault ≡ Memory) }
{
    match topic_of(alloc, words_from(words, 2)) {
        Some(command) => Ok(Task::Help(help_text(command)?)),
        None => Err(usage_refusal(alloc, program(alloc), HELP_RULE)),
    }
}

/// Whether this is the first word after the program's name.
fn is_first_word(word: &str, words: &[&str]) -> bool
    ensures { IsTrue result ↔ IsFirstWord word.now (map (λ word. word.now) words.now) }
{
    match words.get(1) {
        Some(first) => *first == word,
        None => false,
    }
}

/// Whether the first word after the program's name asks for the version.
fn ask_for_version(words: &[&str]) -> bool
    ensures { IsTrue result ↔ AskForVersion (map (λ word. word.now) words.now) }
{
    is_first_word("--version", words) || is_first_word("-V", words)
}

/// The task that a command line asks for. The first of its words is the program's own name.
///
/// # Errors
///
/// `Wrong`, with a text that explains the usage, where the words ask for no task, and `Memory` where
/// memory runs out.
pub fn command_of<'a>(alloc: Global, words: &'a [&'a str]) -> Result<Task<'a>, WordsFault>
    // The task's values are in their ranges: a group that routers forward and an address that a
    // host may send from, a flow's number from 1 to 4,096 and a time to live from 1 to 255, and a
    // folder to audit that doesn't begin with `-` and excluded routers with valid names, each once.
    ensures allowed { IfOk result IsAllowed }
    // The version is given exactly where the first word after the program's name is `--version` or
    // `-V`, whatever follows it.
    ensures version { (result ≡ Ok Task.Version) ↔ AskForVersion (map (λ word. word.now) words.now) }
    // The words ask for the task that is given: after `audit` by a definition of its own, else as
    // clap finds the command and its values in them.
    ensures found { IfOk result (IsAskedFor (map (λ word. word.now) words.now)) }
    // A task that the words ask for is given, unless memory runs out.
    ensures only { (task : Task) → IsAllowed task
        → IsAskedFor (map (λ word. word.now) words.now) task
        → IfErr result (λ fault. fault ≡ Memory) }
{
    if ask_for_version(words) {
        return Ok(Task::Version);
    }
    if is_first_word("help", words) {
        return help_task(alloc, words);
    }
    if is_first_word("audit", words) {
        return audit_task(alloc, words);
    }
    clap_task(alloc, words)
}
