// Jobs: the bytes of a job are taken in pieces of any size, and at the end its line is given.
#![tactic(auto)]

mod adding;
mod bytes;
mod coherent;
mod header;
mod line;
pub mod state;
