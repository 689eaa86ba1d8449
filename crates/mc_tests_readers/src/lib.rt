//! Tests of the crates that read texts: of devices and bundles, IGMP messages, source filters,
//! what hosts ask for, forwarding tables, topologies and certificates, a module for each crate. They are in a crate of
//! their own, since a crate with tests is proved twice.
#![tactic(auto)]

#[cfg(test)]
mod asked;
#[cfg(test)]
mod cert;
#[cfg(test)]
mod filter;
#[cfg(test)]
mod igmp;
#[cfg(test)]
mod tables;
#[cfg(test)]
mod text;
#[cfg(test)]
mod topology;
