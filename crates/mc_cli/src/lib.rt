//! The command line: the task that the program's words ask for, or what is wrong with them.
#![tactic(auto)]

mod arguments;
mod audit_options;
mod audit_words;
mod command;
mod command_task;
mod draft;
mod fault;
mod task;
mod words;

pub use audit_options::{
    AuditOptions, FAULTS_WORD, IGNORE_WORD, JSON_WORD, STRICT_WORD, TRAVEL_WORD, UNLISTED_WORD,
    WITHOUT_WORD,
};
pub use audit_words::AuditWords;
pub use fault::WordsFault;
pub use task::{Task, command_of};
pub use words::{borrow_words, words_of};
