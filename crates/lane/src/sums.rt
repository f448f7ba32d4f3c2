// The sum of products in doubles: each factor is packed into a double, from the highest place down, and one multiplication gives all products of
// a pair at once.
ghost use Rattle.std.specs.Prelude.{◌≡◌, ◌<◌};
ghost use Rattle.polynomials.specs.Places.{packed};
ghost use Rattle.doubles.specs.Whole.{whole_part, Held};
ghost use Rattle.settings.specs.Refusals.{says};
ghost use Rattle.packed.specs.Taken.{taken, taken_one};
ghost use Rattle.lane.specs.Lanes.{lane_sum_checks, sum_word};
ghost use Rattle.lane.specs.SumLaws.{Summing, PacksExactly};

use crate::Lane;
use crate::exact::{plus, times};
use crate::lanes::held_cause;
use settings::coefficients::check_coefficients;
use settings::refusals::Refusal;

// 12, 9, 13, 8.
pub fn check_sum(lane: Lane, xs: &[u16], ys: &[u16]) -> Result<(), Refusal>
    ensures { says result ≡ lane_sum_checks lane xs.now ys.now }
{
    if held_cause(lane) {
        return Err(Refusal::Record);
    }
    let s = lane.setting;
    if xs.len() != ys.len() || xs.len() as u64 % s.k != 0 {
        return Err(Refusal::Shape);
    }
    if s.n < xs.len() as u64 / s.k {
        return Err(Refusal::Full);
    }
    check_coefficients(s.p, xs, ys)
}

// The products of all pairs, added up.
pub fn add_products(lane: Lane, xs: &[u16], ys: &[u16]) -> f64
    requires { Summing lane xs.now ys.now }
    ensures { Held result (sum_word lane.setting xs.now ys.now) }
{
    let p = lane.setting.p;
    let size = lane.setting.k as usize;
    let pairs = xs.len() / size;
    let mut sum = 0.0;
    for r in 0..pairs {
        let at = r * size;
        let left = pack_double(p, lane.q, &xs[at..at + size]);
        let right = pack_double(p, lane.q, &ys[at..at + size]);
        sum = plus(sum, times(left, right));
    }
    sum
}

// The word of the coefficients as packing takes them, from the highest place down.
fn pack_double(p: u64, q: f64, xs: &[u16]) -> f64
    requires { PacksExactly p q xs.now }
    ensures { Held result (packed (whole_part q) (taken p xs.now)) }
{
    let mut w = 0.0;
    for x in xs.iter().rev() {
        w = plus(times(w, q), taken_one(p, *x));
    }
    w
}

// What packing takes of a coefficient: the coefficient itself; p has no part in it.
fn taken_one(p: u64, x: u16) -> f64
    requires { 0 < p }
    ensures { Held result (taken_one p x) }
{
    x as f64
}
