//! Why a command line is refused.

ghost use Rattle.std.specs.Prelude.{◌≡◌};
ghost use Rattle.mc_cli.specs.declared.fault.WordsFault.TheVariants.{Memory};

use crate::command::{audit_command, program};
use clap::Command;
use clap::error::ErrorKind;
use std::alloc::{AllocError, Global};
use thiserror::Error;

/// Why a command line is refused. The number in front of each never changes.
#[derive(Debug, Drop, Error)]
pub enum WordsFault {
    /// (1) The words ask for no task, or for clap's help. The text explains the usage.
    #[error("{0}")]
    Wrong(String),
    /// (2) Memory ran out.
    #[error("no memory")]
    Memory,
}

impl From<AllocError> for WordsFault {
    ghost from_gives = { λ _ e. e ≡ Memory };

    fn from(_refused: AllocError) -> WordsFault {
        WordsFault::Memory
    }
}

/// The fault for an error of clap's, with its text.
pub fn refusal(alloc: Global, error: &clap::Error) -> WordsFault {
    if error.kind() == ErrorKind::OutOfMemory {
        return WordsFault::Memory;
    }
    let explained = error
        .to_string(alloc)
        .and_then(|text| text.trim_end().to_string(alloc));
    match explained {
        Ok(text) => WordsFault::Wrong(text),
        Err(_) => WordsFault::Memory,
    }
}

/// Clap's error for a broken rule, with the usage of the command.
fn usage_error(
    command: Result<Command<'_>, AllocError>,
    rule: &str,
) -> Result<clap::Error, AllocError> {
    let mut command = command?;
    command.error(ErrorKind::ValueValidation, rule)
}

/// The fault for words that break this rule, with the usage of the command.
pub fn usage_refusal(
    alloc: Global,
    command: Result<Command<'_>, AllocError>,
    rule: &str,
) -> WordsFault {
    match usage_error(command, rule) {
        Ok(error) => refusal(alloc, &error),
        Err(_) => WordsFault::Memory,
    }
}

/// The rule for the folder of `audit`.
pub const FOLDER_RULE: &str = "<folder> doesn't begin with -; ./-x is the folder -x";

/// The fault for words that ask for no task, with clap's text for the program with all commands. Words that
/// clap accepts all the same are those of an `audit` whose folder is `-`.
pub fn refusal_explained_by_clap<'a>(alloc: Global, words: &'a [&'a str]) -> WordsFault {
    let Ok(program) = program(alloc) else {
        return WordsFault::Memory;
    };
    match program.try_get_matches_from(words) {
        Ok(_) => usage_refusal(alloc, audit_command(alloc), FOLDER_RULE),
        Err(error) => refusal(alloc, &error),
    }
}
