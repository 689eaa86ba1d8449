mod counts;
mod kernel;
mod losses;
mod memory;
mod network;
