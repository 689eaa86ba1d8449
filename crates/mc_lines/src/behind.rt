//! The lines of what is behind a stray, but for a second copy.

mod behind_text;
mod shown_leaks;

pub use behind_text::push_leaks_behind;
