// The reduction of a word from one quotient by p: document 003's algorithm 2, and its correction.
ghost use Rattle.std.specs.Prelude.{◌≡◌, ◌*◌, ◌/◌, ◌<◌};
ghost use Rattle.polynomials.specs.Places.{shifted, minus};
ghost use Rattle.doubles.specs.Whole.{whole_part, Held};
ghost use Rattle.settings.specs.Limits.{word_bits};
ghost use Rattle.settings.specs.Settings.{base};
ghost use Rattle.words.specs.Places.{reduced_word};
ghost use Rattle.lane.specs.ResidueLaws.{Reducing, Correcting};

use crate::Lane;
use crate::exact::{less, plus, times};
use crate::quotients::{quotient, remainder};
use settings::setting::Setting;

// The word of the m, from the highest place down. Above the last place stands nothing, so the last m is the last u.
pub fn reduce_word(lane: Lane, x: f64) -> f64
    requires { Reducing lane x }
    ensures { Held result (reduced_word lane.setting (whole_part x)) }
{
    let s = lane.setting;
    let word = x as u64;
    let whole = quotient(lane, x) as u64;
    let mut above = 0;
    let mut w = 0.0;
    for i in (0..2 * s.k - 1).rev() {
        let u = shifted_residue(s, i, word, whole);
        w = plus(times(w, lane.q), corrected(lane, u as f64, above as f64));
        above = u;
    }
    w
}

// u_i = floor(word / q^i) mod p. Word and quotient are shifted alike, so that the one less p times the other is the remainder of what stands from
// place i on.
fn shifted_residue(s: Setting, i: u64, word: u64, whole: u64) -> u64
    requires { (i * s.t < word_bits) × (whole ≡ word / s.p) }
    ensures { result ≡ shifted s.p (base s) word i }
{
    (word >> (i * s.t)) - s.p * (whole >> (i * s.t))
}

// m_i = (u_i - q u_(i+1)) mod p
fn corrected(lane: Lane, u: f64, above: f64) -> f64
    requires { Correcting lane u above }
    ensures { Held result (minus lane.setting.p (whole_part u) (base lane.setting * whole_part above)) }
{
    let taken = remainder(lane, times(lane.q, above));
    if u < taken {
        less(plus(u, lane.p), taken)
    } else {
        less(u, taken)
    }
}
