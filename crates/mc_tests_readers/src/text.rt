//! Tests of `mc_text` that neither a clause nor a run of the program covers: worked values, the
//! largest bundles, and devices that fail.

mod bundle_writes;
mod bundles;
mod devices;
mod framing;
mod parts;
mod texts;
