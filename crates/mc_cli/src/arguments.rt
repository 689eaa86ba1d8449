//! The values that clap finds for the arguments of a command, by their names.

ghost use Rattle.std.specs.Prelude.{◌≡◌};
ghost use Rattle.clap.specs.Matches.{found_of};
ghost use Rattle.clap.specs.Walk.{rows_of};
ghost use Rattle.mc_cli.specs.Commands.{IsFlagValue, word_of};

use clap::ArgMatches;

/// The word that an argument has; empty where it has none.
pub fn word_of<'a>(matches: &ArgMatches<'a>, argument: &str) -> &'a str
    ensures { result.now ≡ word_of (rows_of (found_of matches.now)) argument.now }
{
    matches.get_str(argument).unwrap_or("")
}

/// Whether a flag is set.
pub fn is_flag_set(matches: &ArgMatches<'_>, flag: &str) -> bool
    ensures { IsFlagValue (rows_of (found_of matches.now)) flag.now result }
{
    matches.get_flag(flag)
}
