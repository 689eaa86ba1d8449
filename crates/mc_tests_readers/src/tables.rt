//! Tests of `mc_tables` that no run of the program covers.

mod faults;
mod memory;
mod pieces;
