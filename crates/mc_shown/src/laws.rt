//! Theorems: how the lines of the lists begin, and which pairs are shown.

mod excluded_laws;
mod line_laws;
mod unlisted_laws;
mod unlisted_line_laws;

pub use excluded_laws::excluded_lines_have_prefix;
pub use line_laws::wanted_lines_begin_with_two_spaces;
pub use unlisted_laws::the_lowest_unlisted_pairs_are_shown;
pub use unlisted_line_laws::unlisted_lines_have_prefix;
