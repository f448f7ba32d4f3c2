// What a lane record and a word have to be: 16, 12 and 11.
ghost use Rattle.std.specs.Prelude.{◌≡◌, ◌^◌, ◌<◌, false, is_nan};
ghost use Rattle.doubles.specs.Whole.{differs_in_bits};
ghost use Rattle.lane.specs.Lanes.{lane_bits, lane_cause, lane_of, doubles_differ, held_cause, improper_cause};
ghost use Rattle.lane.specs.Accepting.{AcceptsLane};

use crate::Lane;
use crate::short::ShortSetting;
use settings::accepted::Accepted;
use settings::refusals::Refusal;
use settings::setting::{Setting, accept};
use std::num::truncating_f64_to_u64;

// A double has 53 bits.
const LANE_BITS: u64 = 53;

// 2^52, which is above every word of a lane, and below which a whole number is cut and cast back unchanged.
const ABOVE_WORDS: f64 = 4503599627370496.0;

// The bits of -0.
const MINUS_ZERO: u64 = 0x8000_0000_0000_0000;

// The setting's checks, then 16.
#[tactic(auto, unfolding(crate::specs::Lanes::make_checks))]
pub fn accept_lane(s: Setting) -> Result<ShortSetting, Refusal>
    ensures { AcceptsLane s result }
{
    let accepted = accept(s)?;
    if lane_cause(accepted) {
        return Err(Refusal::Lane);
    }
    Ok(ShortSetting { setting: s })
}

// 16 Lane
fn lane_cause(s: Accepted) -> bool
    ensures { result ≡ lane_cause s.setting }
{
    LANE_BITS <= (2 * s.setting.k - 1) * s.setting.t
}

// The record that make makes.
pub fn lane_of(s: ShortSetting) -> Lane
    ensures { result ≡ lane_of s.setting }
{
    let setting = s.setting;
    let p = setting.p as f64;
    let q = (1u64 << setting.t) as f64;
    Lane {
        setting,
        p,
        q,
        inverse: 1.0 / p,
    }
}

// 12 Record: its setting is refused or meets 16, or its doubles are not those that make would hold.
#[tactic(auto, unfolding(crate::specs::Lanes::held_cause))]
pub fn held_cause(lane: Lane) -> bool
    ensures { result ≡ held_cause lane }
{
    match accept_lane(lane.setting) {
        Ok(s) => other_doubles(lane, s),
        Err(_) => true,
    }
}

fn other_doubles(lane: Lane, s: ShortSetting) -> bool
    ensures { result ≡ doubles_differ lane (lane_of s.setting) }
{
    let made = lane_of(s);
    differ(lane.p, made.p) || differ(lane.q, made.q) || differ(lane.inverse, made.inverse)
}

// In any bit. Of a NaN no bits can be had, and none are asked for.
fn differ(x: f64, y: f64) -> bool
    requires { is_nan y ≡ false }
    ensures { result ≡ differs_in_bits x y }
{
    x.is_nan() || x.to_bits() != y.to_bits()
}

// 11 Word: no whole number, or one that is too large. The tests leave out, in order: negative numbers and NaN; large numbers and infinity; -0;
// fractions.
pub fn improper_cause(s: ShortSetting, x: f64) -> bool
    ensures { result ≡ improper_cause s.setting x }
{
    if !(0.0 <= x) || !(x < ABOVE_WORDS) || x.to_bits() == MINUS_ZERO {
        return true;
    }
    let word = truncating_f64_to_u64(x);
    word as f64 != x || 1u64 << ((2 * s.setting.k - 1) * s.setting.t) <= word
}
