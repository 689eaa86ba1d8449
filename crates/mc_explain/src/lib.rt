//! Why a flow isn't right: the causes and remedies that follow from the tables.
#![tactic(auto)]

mod causes;
pub mod laws;

pub use causes::{
    Behind, Cause, Certainty, Explanation, ShownBy, behind_stray, explain, shown_from,
};
