// Text: numbers are read from it, and numbers and refusals are put into a lent buffer.
#![tactic(auto)]

pub mod kinds;
pub mod putting;
pub mod reading;
pub mod whole;
