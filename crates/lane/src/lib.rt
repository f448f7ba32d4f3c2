// The double lane: sums of packed products, and their reduction, worked in doubles. A double holds every whole number below 2^53, and number 16
// keeps all that is formed here below that.
#![tactic(auto)]

ghost use Rattle.lane.specs.Lanes.{Makes, LaneSums, LaneReduces};

mod exact;
mod lanes;
mod quotients;
mod residues;
mod short;
mod sums;

use crate::lanes::{accept_lane, held_cause, improper_cause, lane_of};
use crate::residues::reduce_word;
use crate::short::ShortSetting;
use crate::sums::{add_products, check_sum};
use settings::refusals::Refusal;
use settings::setting::Setting;

// The setting, and beside it p, q and 1/p as doubles.
#[derive(Clone, Copy)]
pub struct Lane {
    pub setting: Setting,
    pub p: f64,
    pub q: f64,
    pub inverse: f64,
}

// The setting's checks, then 16.
pub fn make(s: Setting) -> Result<Lane, Refusal>
    ensures { Makes s result }
{
    let s = accept_lane(s)?;
    Ok(lane_of(s))
}

// Two flat lists of at most n pairs, k coefficients per polynomial: 12, 9, 13, 8. The answer is the sum of products, unreduced.
pub fn sum(lane: Lane, xs: &[u16], ys: &[u16]) -> Result<f64, Refusal>
    ensures { LaneSums lane xs.now ys.now result }
{
    check_sum(lane, xs, ys)?;
    Ok(add_products(lane, xs, ys))
}

// The word whose fields are the old ones modulo p: 12, 11.
#[tactic(auto, unfolding(crate::specs::Lanes::reduce_checks))]
pub fn reduce(lane: Lane, word: f64) -> Result<f64, Refusal>
    ensures { LaneReduces lane word result }
{
    if held_cause(lane) {
        return Err(Refusal::Record);
    }
    let s = ShortSetting {
        setting: lane.setting,
    };
    if improper_cause(s, word) {
        return Err(Refusal::Word(0));
    }
    Ok(reduce_word(lane, word))
}
