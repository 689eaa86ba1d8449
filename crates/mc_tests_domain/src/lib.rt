//! The tests of the crates from the domain up to the maker. Each has its module here.
#![tactic(auto)]

#[cfg(test)]
mod check;
#[cfg(test)]
mod forward;
#[cfg(test)]
mod maker;
#[cfg(test)]
mod replay;
#[cfg(test)]
mod samples;
