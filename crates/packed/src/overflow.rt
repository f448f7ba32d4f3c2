// 18 Overflow, all of it: the test is made once a batch, on the largest words that the setting can pack, so that a product costs nothing. An
// accepted setting has room for n products of them, by 5 and 6: the test never holds.
ghost use Rattle.std.specs.Prelude.{◌≡◌, ◌≤◌, ltb};
ghost use Rattle.polynomials.specs.Places.{packed};
ghost use Rattle.settings.specs.Settings.{base};
ghost use Rattle.packed.specs.OverflowLaws.{largest};

use settings::accepted::Accepted;

// How many products of the largest words fit one word.
pub fn products_that_fit(s: Accepted) -> u64
    ensures { s.setting.n ≤ result }
{
    let w = largest_word(s);
    u64::MAX / (w * w)
}

// Whether a batch of count products has more than fit.
pub fn overflows(fit: u64, count: usize) -> bool
    ensures { result ≡ ltb fit count }
{
    fit < count as u64
}

// The word of k coefficients p - 1.
fn largest_word(s: Accepted) -> u64
    ensures { result ≡ packed (base s.setting) (largest s.setting) }
{
    let q = s.base();
    let mut w = 0;
    for _ in 0..s.setting.k {
        w = w * q + (s.setting.p - 1);
    }
    w
}
