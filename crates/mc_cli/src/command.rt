//! The program's commands and their arguments, and its help.

ghost use Rattle.std.specs.Prelude.{◌≡◌, [], false, is_some, IfOk};
ghost use Rattle.clap.specs.Simple.{App, Shape, with_rule, with_subcommand};
ghost use Rattle.clap.specs.Walk.{Rule, rule_of};
ghost use Rattle.mc_cli.specs.Commands.{IsCommand, IsLeaf, check_shape, command_shape, commands};
ghost use Rattle.mc_cli.specs.Commands.{flag_rule, make_shape, option_rule, pack_shape};
ghost use Rattle.mc_cli.specs.Commands.{is_command, program_shape, replay_shape, required_rule, wants_shape};

use crate::audit_options::{
    FAULTS_WORD, IGNORE_WORD, JSON_WORD, STRICT_WORD, TRAVEL_WORD, UNLISTED_WORD, WITHOUT_WORD,
};
use clap::{Arg, ArgAction, Command};
use std::alloc::{AllocError, Global};

const EXAMPLES: &str = "\
Examples: is each flow of a domain forwarded right, and if not, what is wrong?
  mcaudit audit examples/network --travel
Is each flow of a domain forwarded as its certificate says?
  mcaudit check < bundle
Which certificate does a domain have, or what is wrong with its flows?
  mcaudit make < bundle
Where does a packet of the first flow go that is sent with a TTL of 3?
  mcaudit replay 1 3 < bundle
How is a bundle made of a folder's files?
  mcaudit pack examples/network --certificate > bundle
Does a LAN want what 10.0.0.5 sends to 239.1.2.3?
  mcaudit wants 239.1.2.3 10.0.0.5 < reports

Statuses: 0 yes, 1 no, 2 refused input, 3 read or write failed, 4 no memory, 5 usage error
mcaudit help writes this text, and mcaudit help <command> that of a command
mcaudit --version prints the version";

/// Adds an argument to a command.
fn with_argument<'a>(
    command: Result<Command<'a>, AllocError>,
    argument: Arg<'a>,
) -> Result<Command<'a>, AllocError>
    ensures { (app : App) (rule : Rule) → rule_of argument.entry ≡ rule
        → argument.entry.global ≡ false → IfOk command.entry (IsCommand app)
        → IfOk result (IsCommand (with_rule app rule)) }
{
    let command = command?;
    command.arg(argument)
}

/// Adds a subcommand to a command.
fn with_command<'a>(
    command: Result<Command<'a>, AllocError>,
    below: Result<Command<'a>, AllocError>,
) -> Result<Command<'a>, AllocError>
    ensures { (app : App) (shape : Shape) → IfOk command.entry (IsCommand app)
        → IfOk below.entry (IsLeaf shape)
        → IfOk result (IsCommand (with_subcommand app shape)) }
{
    let command = command?;
    let below = below?;
    command.subcommand(below)
}

/// A required argument, given by its position.
fn required<'a>(alloc: Global, name: &'a str, help: &'a str) -> Arg<'a>
    ensures rule { rule_of result ≡ required_rule name.now }
    ensures local { result.global ≡ false }
{
    Arg::new(alloc, name).required(true).help(help)
}

/// A flag `--name`.
fn flag<'a>(alloc: Global, name: &'a str, help: &'a str) -> Arg<'a>
    ensures rule { rule_of result ≡ flag_rule name.now }
    ensures local { result.global ≡ false }
{
    Arg::new(alloc, name)
        .long(name)
        .action(ArgAction::SetTrue)
        .help(help)
}

/// The name in a word `--name`.
fn name_in_word(word: &str) -> &str {
    word.trim_start_matches('-')
}

/// The flag that a word `--name` sets.
fn flag_of_word<'a>(alloc: Global, word: &'a str, help: &'a str) -> Arg<'a> {
    flag(alloc, name_in_word(word), help)
}

/// An option `--name` with a value, and its default value.
fn option<'a>(alloc: Global, name: &'a str, value: &'a str, help: &'a str) -> Arg<'a>
    ensures rule { rule_of result ≡ option_rule name.now value.now }
    ensures local { result.global ≡ false }
{
    Arg::new(alloc, name)
        .long(name)
        .default_value(value)
        .help(help)
}

/// An option `--name` that may be repeated. The word after it is its value, whatever it begins with.
fn repeated<'a>(alloc: Global, name: &'a str, value: &'a str, help: &'a str) -> Arg<'a> {
    Arg::new(alloc, name)
        .long(name)
        .value_name(value)
        .action(ArgAction::Append)
        .allow_hyphen_values(true)
        .help(help)
}

/// A command without arguments.
fn bare_command<'a>(alloc: Global, name: &'a str, about: &'a str, usage: &'a str) -> Command<'a>
    ensures { IsLeaf (command_shape name.now []) result }
{
    Command::new(alloc, name).about(about).override_usage(usage)
}

const FOLDER: &str =
    "The folder with the files topology, vif-<router>, cache-<router> and igmp-<lan>";

/// The command `wants` and its arguments.
pub fn wants_command<'a>(alloc: Global) -> Result<Command<'a>, AllocError>
    ensures { IfOk result (IsLeaf wants_shape) }
{
    let command = bare_command(
        alloc,
        "wants",
        "Shows whether a LAN wants what a source sends to a group, by its IGMP reports",
        "mcaudit wants <group> <source>",
    );
    let group = required(alloc, "group", "The group, 224.0.1.0 to 239.255.255.255");
    with_argument(
        command.arg(group),
        required(alloc, "source", "The source's address"),
    )
}

const AUDIT_USAGE: &str = "\
mcaudit audit <folder> [--travel] [--faults] [--unlisted] [--strict] [--json] \
[--without <router>]... [--ignore <range>]...";

/// The command `audit` and its arguments.
pub fn audit_command<'a>(alloc: Global) -> Result<Command<'a>, AllocError> {
    let command = bare_command(
        alloc,
        "audit",
        "Judges each flow of a folder's files, and shows what is wrong with each that has no certificate",
        AUDIT_USAGE,
    );
    let travel = "Shows the travel of each packet that shows a fault, event by event";
    let faults = "Leaves out the flows that are right and wanted";
    let unlisted = "Lists all unlisted sources and groups of the caches, not only the 20 lowest";
    let strict =
        "Ends with status 1 also where nobody wants a right flow, or no flow answers what hosts ask for";
    let json = "Writes one JSON object a line";
    let without = "Audits without the router's tables, and then can't say yes";
    let ignore = "Ignores what hosts ask for in a range of groups, as 239.0.0.0/8";
    let command = command.arg(required(alloc, "folder", FOLDER));
    let command = with_argument(command, flag_of_word(alloc, TRAVEL_WORD, travel));
    let command = with_argument(command, flag_of_word(alloc, FAULTS_WORD, faults));
    let command = with_argument(command, flag_of_word(alloc, UNLISTED_WORD, unlisted));
    let command = with_argument(command, flag_of_word(alloc, STRICT_WORD, strict));
    let command = with_argument(command, flag_of_word(alloc, JSON_WORD, json));
    let command = with_argument(
        command,
        repeated(alloc, name_in_word(WITHOUT_WORD), "router", without),
    );
    with_argument(
        command,
        repeated(alloc, name_in_word(IGNORE_WORD), "range", ignore),
    )
}

/// The command `check`, which has no arguments.
fn check_command<'a>(alloc: Global) -> Command<'a>
    ensures { IsLeaf check_shape result }
{
    bare_command(
        alloc,
        "check",
        "Judges each flow of a bundle by its certificate, and all of them",
        "mcaudit check",
    )
}

/// The command `make`, which has no arguments.
fn make_command<'a>(alloc: Global) -> Command<'a>
    ensures { IsLeaf make_shape result }
{
    bare_command(
        alloc,
        "make",
        "Makes the certificate of a bundle, or shows what is wrong with each flow that has none",
        "mcaudit make",
    )
}

/// The command `pack` and its arguments.
fn pack_command<'a>(alloc: Global) -> Result<Command<'a>, AllocError>
    ensures { IfOk result (IsLeaf pack_shape) }
{
    let command = bare_command(
        alloc,
        "pack",
        "Packs the files of a folder into a bundle",
        "mcaudit pack <folder> [--certificate]",
    );
    with_argument(
        command.arg(required(alloc, "folder", FOLDER)),
        flag(alloc, "certificate", "Packs the file certificate too"),
    )
}

/// The command `replay` and its arguments.
pub fn replay_command<'a>(alloc: Global) -> Result<Command<'a>, AllocError>
    ensures { IfOk result (IsLeaf replay_shape) }
{
    let command = bare_command(
        alloc,
        "replay",
        "Shows one packet's travel, event by event, and what is found",
        "mcaudit replay <flow> <ttl> [--order first|last]",
    );
    let flow = "The flow's number in the topology, counted from 1";
    let ttl = "The packet's TTL, 1 to 255";
    let order = "Which of the waiting copies is handled next: first or last";
    let command = command.arg(required(alloc, "flow", flow));
    let command = with_argument(command, required(alloc, "ttl", ttl));
    with_argument(command, option(alloc, "order", "first", order))
}

/// The program and its help, without commands.
fn bare_program<'a>(alloc: Global) -> Command<'a>
    ensures { IsLeaf program_shape result }
{
    Command::new(alloc, "mcaudit")
        .about("Audits the multicast forwarding state of a domain of Linux routers")
        .override_usage("mcaudit <command>")
        .after_help(EXAMPLES)
        .subcommand_required(true)
        .arg_required_else_help(true)
        .disable_help_subcommand(true)
}

/// Adds all commands but `audit` to the program.
fn with_commands<'a>(
    alloc: Global,
    program: Result<Command<'a>, AllocError>,
) -> Result<Command<'a>, AllocError>
    ensures { IfOk program.entry (IsLeaf program_shape) → IfOk result (IsCommand commands) }
{
    let program = with_command(program, Ok(check_command(alloc)));
    let program = with_command(program, Ok(make_command(alloc)));
    let program = with_command(program, pack_command(alloc));
    let program = with_command(program, replay_command(alloc));
    with_command(program, wants_command(alloc))
}

/// The program with all commands, by which clap explains what is wrong.
pub fn program<'a>(alloc: Global) -> Result<Command<'a>, AllocError> {
    let program = with_command(Ok(bare_program(alloc)), audit_command(alloc));
    with_commands(alloc, program)
}

/// The program with the commands whose words clap parses: all but `audit`.
pub fn clap_program<'a>(alloc: Global) -> Result<Command<'a>, AllocError>
    ensures { IfOk result (IsCommand commands) }
{
    with_commands(alloc, Ok(bare_program(alloc)))
}

/// The command of this name, if there is one.
pub fn command_named<'a>(alloc: Global, name: &str) -> Option<Result<Command<'a>, AllocError>>
    ensures { is_some result ≡ is_command name.now }
{
    match name {
        "audit" => Some(audit_command(alloc)),
        "check" => Some(Ok(check_command(alloc))),
        "make" => Some(Ok(make_command(alloc))),
        "pack" => Some(pack_command(alloc)),
        "replay" => Some(replay_command(alloc)),
        "wants" => Some(wants_command(alloc)),
        _ => None,
    }
}
