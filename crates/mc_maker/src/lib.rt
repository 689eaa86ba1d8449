//! The maker: the certificate entries of a flow that is right, and for any other flow a travel that
//! shows what is wrong.
#![tactic(auto)]

mod clean_run;
mod entries;
mod examination;
mod examined_flights;
mod served;

pub use examination::{Examined, examine, make};
pub use examined_flights::{ExaminedFlights, examine_to_end};
