// The generator: the product of (x - 3^j), j from 1 on.
ghost use Rattle.std.specs.Prelude.{◌≡◌, ◌++◌, ◌-◌, ◌+◌, ◌≤◌, ◌<◌, length, take, drop};
ghost use Rattle.polynomials.specs.Lists.{Below};
ghost use Rattle.labels.specs.Labels.{modulus, most_checks, generator};
ghost use Rattle.labels.specs.Working.{times_root};

use crate::limits::MOST_CHECKS;
use crate::powers::{Powers, powers_of_three};
use crate::setting::LABELS;
use crate::word_lists::take_away;
use packed::products::product;

// As many roots as there are places after the first, and the coefficient of x^0 first.
pub fn make_generator(out: &mut [u16])
    requires { (0 < length out.old) × (length out.old ≤ most_checks + 1) }
    ensures { out.new ≡ generator (length out.old - 1) }
{
    let powers = powers_of_three();
    out[0] = 1;
    for j in 1..out.len() {
        times_root(j, &powers, out);
    }
}

// The polynomial in the first j places, times (x - 3^j).
fn times_root(j: usize, powers: &Powers, out: &mut [u16])
    requires { (0 < j) × (j < length out.old) × (length out.old ≤ most_checks + 1) × Below modulus (take j out.old) }
    ensures { out.new ≡ times_root j (take j out.old) ++ drop (j + 1) out.old }
{
    let factor = [take_away(0, powers.table[j]), 1];
    let mut longer = [0u16; MOST_CHECKS + 1];
    // No refusal can arise, as in `division`.
    let _ = product(LABELS, &out[..j], &factor, &mut longer);
    out[..j + 1].copy_from_slice(&longer[..j + 1]);
}
