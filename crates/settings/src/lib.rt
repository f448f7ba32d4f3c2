// What every call is given, and what it answers: the setting with its limits and checks, coefficients, refusals by number.
#![tactic(auto)]

pub mod accepted;
pub mod coefficients;
pub mod limits;
pub mod refusals;
pub mod setting;
