//! What an audit leaves out.

use mc_text::GroupRange;

/// What an audit leaves out: the tables of some routers, and what hosts ask for of some groups.
#[derive(Clone, Copy, Debug)]
pub struct LeftOut<'w> {
    /// The names of the routers that are excluded.
    pub without: &'w [&'w str],
    /// The ranges of groups whose wants are left aside, ascending.
    pub ignored: &'w [GroupRange],
}
