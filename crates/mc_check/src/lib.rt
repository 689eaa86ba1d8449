//! The checker: whether a list of entries certifies a flow of a domain. It compares each table entry
//! with the ranks and needs of the list, and simulates nothing; after a yes, every packet of the flow
//! is forwarded right, in every order.
#![tactic(auto)]

mod check;
mod entries_by_lan;
mod fed;
mod routers;
mod served;
mod shown;
mod verdict;

pub use check::{check_all, check_flow};
pub use shown::{ShownReason, ShownVerdict};
pub use verdict::{Reason, Verdict};
