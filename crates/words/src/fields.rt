// The loops on a word's fields, in an accepted setting. Nothing is refused here.
ghost use Rattle.std.specs.Prelude.{◌≡◌, ◌≤◌, length};
ghost use Rattle.polynomials.specs.Indices.{upto, filled, found};
ghost use Rattle.polynomials.specs.Places.{field, shifted};
ghost use Rattle.settings.specs.Settings.{base, places};
ghost use Rattle.words.specs.Places.{word_cause, first_bad_word, reduced_word};

use settings::accepted::Accepted;

// 11 Word. What stands from the last place on is one field, so it has to be below q; no power above the word's bits is formed.
pub fn word_cause(s: Accepted, word: u64) -> bool
    ensures { result ≡ word_cause s.setting word }
{
    s.base() <= word >> ((2 * s.setting.k - 2) * s.setting.t)
}

// The index of the first word that meets 11.
pub fn first_bad_word(s: Accepted, words: &[u64]) -> Option<usize>
    ensures { result ≡ found (first_bad_word s.setting words.now) (length words.now) }
{
    for (i, word) in words.iter().enumerate() {
        if word_cause(s, *word) {
            return Some(i);
        }
    }
    None
}

// The fields of the word, into the first elements.
pub fn split_fields(s: Accepted, word: u64, out: &mut [u64])
    requires { places s.setting ≤ length out.old }
    ensures { out.new ≡ filled (places s.setting) (field (base s.setting) word) out.old }
{
    let q = s.base();
    let m = s.places();
    let mut rest = word;
    for i in 0..m {
        out[i] = rest % q;
        rest = rest >> s.setting.t;
    }
}

// The u of each place, into the first elements, from one division by p. Word and quotient are shifted together, so that at place i the one less p times the
// other is the remainder of what stands from there on.
pub fn split_shifted(s: Accepted, word: u64, out: &mut [u16])
    requires { places s.setting ≤ length out.old }
    ensures { out.new ≡ filled (places s.setting) (shifted s.setting.p (base s.setting) word) out.old }
{
    let p = s.setting.p;
    let t = s.setting.t;
    let mut rest = word;
    let mut quotient = word / p;
    for i in 0..s.places() {
        out[i] = (rest - p * quotient) as u16;
        rest = rest >> t;
        quotient = quotient >> t;
    }
}

// The word of the fields modulo p, each by its own remainder, from the highest place down.
pub fn reduce_fields(s: Accepted, word: u64) -> u64
    ensures { result ≡ reduced_word s.setting word }
{
    let p = s.setting.p;
    let q = s.base();
    let mut w = 0;
    for i in (0..s.places()).rev() {
        w = w * q + (word >> (i as u64 * s.setting.t)) % q % p;
    }
    w
}
