//! The task of a command whose words clap parses: `check`, `make`, `pack`, `replay` or `wants`.

ghost use Rattle.std.specs.Prelude.{◌≡◌, ◌≤◌, ℕ, Bool, IfErr, IfOk, IfSome, Ok, Some, codes, map};
ghost use Rattle.clap.specs.Simple.{subcommand_rows_of};
ghost use Rattle.clap.specs.Matches.{found_of};
ghost use Rattle.clap.specs.Values.{kind_of};
ghost use Rattle.clap.specs.Walk.{rows_of};
ghost use Rattle.clap.specs.declared.error.kind.ErrorKind.TheVariants.{OutOfMemory};
ghost use Rattle.mc_text.specs.Addr.{IsForwardedGroup, IsSource, dotted};
ghost use Rattle.mc_text.specs.Number.{IsDecimal};
ghost use Rattle.mc_cli.specs.Task.{AreReplayWords, AreWantsWords, IsAllowed, IsClapTask};
ghost use Rattle.mc_cli.specs.Task.{IsTaskOfCommand, IsTaskOfSubcommand, order_word};
ghost use Rattle.mc_cli.specs.declared.task.Task.{Task};
ghost use Rattle.mc_cli.specs.declared.fault.WordsFault.TheVariants.{Memory};

use crate::arguments::{is_flag_set, word_of};
use crate::command::{clap_program, program, replay_command, wants_command};
use crate::fault::{WordsFault, refusal_explained_by_clap, usage_refusal};
use crate::task::Task;
use clap::ArgMatches;
use clap::error::ErrorKind;
use mc_text::{Addr, decimal};
use std::alloc::Global;

/// The rule for the group of `wants`.
const GROUP_RULE: &str = "<group> is an address from 224.0.1.0 to 239.255.255.255, as 239.1.2.3";

/// The rule for the flow of `replay`.
const FLOW_RULE: &str = "<flow> is a number from 1 to 4096";

/// The rule for the TTL of `replay`.
const TTL_RULE: &str = "<ttl> is a number from 1 to 255";

/// The rule for the order of `replay`.
const ORDER_RULE: &str = "--order is first or last";

/// The rule for the source of `wants`.
const SOURCE_RULE: &str =
    "<source> is an address whose first number is 1 to 223 and not 127, as 10.0.0.5";

/// Parses the address of a group that routers forward, 224.0.1.0 to 239.255.255.255.
fn group_of(word: &str) -> Option<Addr>
    ensures found { IfSome result (λ group. IsForwardedGroup group × (word.now ≡ dotted group)) }
    ensures only { (group : ℕ) → IsForwardedGroup group → word.now ≡ dotted group
        → result ≡ Some group }
{
    let group = Addr::parse_dotted(word.as_bytes())?;
    group.is_forwarded_group().then_some(group)
}

/// Parses an address that a host may send from.
fn source_of(word: &str) -> Option<Addr>
    ensures found { IfSome result (λ source. IsSource source × (word.now ≡ dotted source)) }
    ensures only { (source : ℕ) → IsSource source → word.now ≡ dotted source
        → result ≡ Some source }
{
    let source = Addr::parse_dotted(word.as_bytes())?;
    source.is_source().then_some(source)
}

/// Parses a decimal number from 1 to `greatest`.
fn number_of(word: &str, greatest: u64) -> Option<u64>
    ensures range { IfSome result (λ number. (1 ≤ number) × (number ≤ greatest)) }
    ensures found { IfSome result (IsDecimal word.now) }
    ensures only { (number : ℕ) → IsDecimal word.now number → 1 ≤ number → number ≤ greatest
        → result ≡ Some number }
{
    let number = decimal(word.as_bytes(), greatest)?;
    (number >= 1).then_some(number)
}

/// Parses which waiting copy is handled next: true for `last`, false for `first`.
fn read_order(word: &str) -> Option<bool>
    ensures found { IfSome result (λ last. word.now ≡ order_word last) }
    ensures only { (last : Bool) → word.now ≡ order_word last → result ≡ Some last }
{
    match word {
        "first" => Some(false),
        "last" => Some(true),
        _ => None,
    }
}

/// The fault for words after `replay` that break this rule.
fn replay_refusal(alloc: Global, rule: &str) -> WordsFault {
    usage_refusal(alloc, replay_command(alloc), rule)
}

/// The task of the words after `replay`.
fn replay_task<'a>(
    alloc: Global,
    flow: &'a str,
    ttl: &'a str,
    order: &'a str,
) -> Result<Task<'a>, WordsFault>
    ensures allowed { IfOk result IsAllowed }
    ensures found { IfOk result (AreReplayWords flow.now ttl.now order.now) }
    ensures only { (flow_number sent_ttl : ℕ) (last : Bool)
        → IsAllowed (Task.Replay flow_number sent_ttl last)
        → AreReplayWords flow.now ttl.now order.now (Task.Replay flow_number sent_ttl last)
        → result ≡ Ok (Task.Replay flow_number sent_ttl last) }
{
    let Some(flow) = number_of(flow, 4_096) else {
        return Err(replay_refusal(alloc, FLOW_RULE));
    };
    let Some(ttl) = number_of(ttl, 255) else {
        return Err(replay_refusal(alloc, TTL_RULE));
    };
    let Some(last) = read_order(order) else {
        return Err(replay_refusal(alloc, ORDER_RULE));
    };
    let flow = flow as u32;
    let ttl = ttl as u8;
    Ok(Task::Replay { flow, ttl, last })
}

/// The task of the words after `wants`.
fn wants_task<'a>(alloc: Global, group: &'a str, source: &'a str) -> Result<Task<'a>, WordsFault>
    ensures allowed { IfOk result IsAllowed }
    ensures found { IfOk result (AreWantsWords group.now source.now) }
    ensures only { (group_address source_address : ℕ) → IsForwardedGroup group_address
        → IsSource source_address → group.now ≡ dotted group_address
        → source.now ≡ dotted source_address
        → result ≡ Ok (Task.Wants group_address source_address) }
{
    let Some(group) = group_of(group) else {
        return Err(usage_refusal(alloc, wants_command(alloc), GROUP_RULE));
    };
    let Some(source) = source_of(source) else {
        return Err(usage_refusal(alloc, wants_command(alloc), SOURCE_RULE));
    };
    Ok(Task::Wants { group, source })
}

/// The task of the words after `pack`.
fn pack_task<'a>(matches: &ArgMatches<'a>) -> Task<'a>
    ensures allowed { IsAllowed result }
    ensures found { IsTaskOfCommand (codes "pack") (rows_of (found_of matches.now)) result }
{
    Task::Pack {
        folder: word_of(matches, "folder"),
        certificate: is_flag_set(matches, "certificate"),
    }
}

/// The task of a command with the words after it.
fn named_task<'a>(
    alloc: Global,
    command: &str,
    words: &ArgMatches<'a>,
) -> Result<Task<'a>, WordsFault>
    ensures allowed { IfOk result IsAllowed }
    ensures found { IfOk result (IsTaskOfCommand command.now (rows_of (found_of words.now))) }
    ensures only { (task : Task) → IsAllowed task
        → IsTaskOfCommand command.now (rows_of (found_of words.now)) task
        → IfErr result (λ fault. fault ≡ Memory) }
{
    match command {
        "check" => Ok(Task::Check),
        "make" => Ok(Task::Make),
        "pack" => Ok(pack_task(words)),
        "replay" => replay_task(
            alloc,
            word_of(words, "flow"),
            word_of(words, "ttl"),
            word_of(words, "order"),
        ),
        "wants" => wants_task(alloc, word_of(words, "group"), word_of(words, "source")),
        // No other name comes here, since clap knows no other command.
        _ => Err(missing_command_refusal(alloc)),
    }
}

/// The fault for a command line without a command.
fn missing_command_refusal(alloc: Global) -> WordsFault {
    usage_refusal(alloc, program(alloc), "no command is given")
}

/// The task of the command that clap found.
fn task_of<'a>(alloc: Global, matches: &ArgMatches<'a>) -> Result<Task<'a>, WordsFault>
    ensures allowed { IfOk result IsAllowed }
    ensures found { IfOk result (IsTaskOfSubcommand (subcommand_rows_of matches.now)) }
    ensures only { (task : Task) → IsAllowed task → IsTaskOfSubcommand (subcommand_rows_of matches.now) task
        → IfErr result (λ fault. fault ≡ Memory) }
{
    match matches.subcommand() {
        Some((command, words)) => named_task(alloc, command, words),
        None => Err(missing_command_refusal(alloc)),
    }
}

/// The fault for words that clap refuses, with clap's text for the program with all commands.
fn clap_refusal<'a>(alloc: Global, words: &'a [&'a str], error: &clap::Error) -> WordsFault
    ensures { kind_of error.now ≡ OutOfMemory → result ≡ Memory }
{
    match error.kind() {
        ErrorKind::OutOfMemory => WordsFault::Memory,
        _ => refusal_explained_by_clap(alloc, words),
    }
}

/// The task of a command line that clap parses.
pub(crate) fn clap_task<'a>(alloc: Global, words: &'a [&'a str]) -> Result<Task<'a>, WordsFault>
    ensures allowed { IfOk result IsAllowed }
    ensures found { IfOk result (IsClapTask (map (λ word. word.now) words.now)) }
    ensures only { (task : Task) → IsAllowed task
        → IsClapTask (map (λ word. word.now) words.now) task
        → IfErr result (λ fault. fault ≡ Memory) }
{
    match clap_program(alloc)?.try_get_matches_from(words) {
        Ok(matches) => task_of(alloc, &matches),
        Err(error) => Err(clap_refusal(alloc, words, &error)),
    }
}
