// Quotients and remainders by p, from the held 1/p and without a division. What they ask is of a record and a double together, and no type holds the two.
ghost use Rattle.std.specs.Prelude.{◌/◌, ◌%◌};
ghost use Rattle.doubles.specs.Whole.{whole_part, Held, cut_product};
ghost use Rattle.lane.specs.QuotientLaws.{DoubleToDivide};

use crate::Lane;
use crate::exact::{less, times};
use std::num::truncating_f64_to_u64;

// The quotient, exactly. The cut product is never above it and low by at most one, as off-by-one of `doubles` says; where it is low, p or more is
// left of x, and one is added.
pub fn quotient(lane: Lane, x: f64) -> f64
    requires { DoubleToDivide lane x }
    ensures { Held result (whole_part x / lane.setting.p) }
{
    let guess = cut_product(lane, x);
    let rest = less(x, times(guess, lane.p));
    if rest < lane.p { guess } else { guess + 1.0 }
}

pub fn remainder(lane: Lane, x: f64) -> f64
    requires { DoubleToDivide lane x }
    ensures { Held result (whole_part x % lane.setting.p) }
{
    less(x, times(quotient(lane, x), lane.p))
}

// The rounded product with the held 1/p, cut to a whole number.
fn cut_product(lane: Lane, x: f64) -> f64
    requires { DoubleToDivide lane x }
    ensures { Held result (cut_product (whole_part x) lane.setting.p) }
{
    truncating_f64_to_u64(x * lane.inverse) as f64
}
