//! The lines that say why an input or a task is refused.

mod fault_text;
mod fault_words;
mod line_front;
mod quoted;
mod refusal_text;

pub use refusal_text::{print_refused_files, refusal_lines};
