//! Tests of `mc_cert` that neither a clause nor a run of the program covers: a text that is too long,
//! lack of memory, and certificates in other forms that are read and written again.

mod forms;
mod limits;
mod memory;
mod network;
mod written;
