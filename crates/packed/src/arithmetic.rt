// The packing loop, and the arithmetic under the public calls. Nothing is refused here: each function states what it assumes, of the numbers it is given
// and not of the rule that accepted them: the loops are called with constants for k, which a setting would hide from the compiler.
ghost use Rattle.std.specs.Prelude.{◌≡◌, ◌^◌, ◌<◌, ◌≤◌};
ghost use Rattle.polynomials.specs.Indices.{rounded_up};
ghost use Rattle.polynomials.specs.Places.{packed};
ghost use Rattle.settings.specs.Limits.{largest_batch, most_pairs, word_bits};
ghost use Rattle.packed.specs.Taken.{taken, taken_one};

// The word of the coefficients as packing takes them, from the highest place down.
pub fn pack_taken(p: u64, t: u64, xs: &[u16]) -> u64
    requires { (0 < p) × (t < word_bits) × (packed (2 ^ t) (taken p xs.now) < 2 ^ word_bits) }
    ensures { result ≡ packed (2 ^ t) (taken p xs.now) }
{
    let q = 1u64 << t;
    let mut w = 0;
    for x in xs.iter().rev() {
        w = w * q + taken_one(p, *x);
    }
    w
}

// What packing takes of a coefficient: the coefficient itself; p has no part in it. All that this crate packs is read here, so that a rule which takes it
// modulo p has one place.
#[tactic(auto, unfolding(crate::specs::Taken::taken_one))]
fn taken_one(_p: u64, x: u16) -> u64
    requires { 0 < _p }
    ensures { result ≡ taken_one _p x }
{
    u64::from(x)
}

// m / n, rounded up.
pub fn rounded_up(m: usize, n: u64) -> usize
    requires { (1 ≤ n) × (n ≤ largest_batch) × (m ≤ most_pairs) }
    ensures { result ≡ rounded_up m n }
{
    m.div_ceil(n as usize)
}
