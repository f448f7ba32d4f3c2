// Polynomials with coefficients modulo p, packed into one 64-bit word, a coefficient to every t bits: pack, products, the running record.
#![tactic(auto)]

mod arithmetic;
mod batches;
mod blocks;
mod columns;
mod overflow;
pub mod packing;
pub mod products;
pub mod running;
