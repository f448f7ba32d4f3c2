// A polynomial at the roots of the generator.
ghost use Rattle.std.specs.Prelude.{◌≡◌, ◌≤◌};
ghost use Rattle.labels.specs.Labels.{most_checks, value_at, vanishing};
ghost use Rattle.labels.specs.Working.{Polynomial};

use crate::limits::MOST_WORDS;
use crate::powers::{Powers, fill_powers, powers_of_three};
use crate::setting::LABELS;
use packed::running::{close, feed, fresh};

// Whether it vanishes at each of the first m. A loop, as value_at asks for more than `all` would pass on.
pub fn vanishes(m: usize, a: &[u16]) -> bool
    requires { (m ≤ most_checks) × Polynomial a.now }
    ensures { result ≡ vanishing m a.now }
{
    let table = powers_of_three();
    for j in 0..m {
        if 0 < value_at(j + 1, &table, a) {
            return false;
        }
    }
    true
}

// What it is at 3^j, modulo 929: the sum of the products of coefficients and powers, by the running record.
fn value_at(j: usize, table: &Powers, a: &[u16]) -> u16
    requires { (j ≤ most_checks) × Polynomial a.now }
    ensures { result ≡ value_at a.now j }
{
    let n = a.len();
    let mut powers = [0u16; MOST_WORDS];
    fill_powers(j, table, &mut powers[..n]);
    // The setting is accepted, and no label has more words than a batch: no refusal can arise.
    let fed = feed(fresh(LABELS).running, a, &powers[..n]);
    let mut sum = [0u16; 1];
    let _ = close(fed.running, &mut sum);
    sum[0]
}
