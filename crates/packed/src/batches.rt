// The work of feed and close, on the sum that a record holds. One multiplication a pair; a batch of n pairs is added up in one word before it is
// split, and its fields go into the residues. No division is made for a pair.
ghost use Rattle.std.specs.Prelude.{◌≡◌, Ok, ◌+◌, ◌%◌, ◌<◌, ◌≤◌, length};
ghost use Rattle.polynomials.specs.Indices.{filled};
ghost use Rattle.packed.specs.Running.{split, closing_of};
ghost use Rattle.settings.specs.Settings.{base, places};
ghost use Rattle.packed.specs.Feeding.{OpenBatch, after_batch, Multiplying};
ghost use Rattle.packed.specs.FedPairs.{PairsToFeed, fed_sum, products};

use crate::arithmetic::pack_taken;
use crate::overflow::{overflows, products_that_fit};
use crate::running::Sum;
use settings::accepted::Accepted;
use settings::refusals::Refusal;
use settings::setting::Setting;

// All pairs of two flat lists, a batch at a time: what the open batch still takes, then n pairs, then what is left. 18 would be given where a word
// overflows, and that is nowhere. A `while`, as a turn takes as many pairs as its batch.
pub fn add_pairs(s: Accepted, sum: Sum, xs: &[u16], ys: &[u16]) -> Result<Sum, Refusal>
    requires { PairsToFeed s.setting sum xs.now ys.now }
    ensures { result ≡ Ok (fed_sum s.setting sum xs.now ys.now) }
{
    let n = s.setting.n;
    let pairs = xs.len() / s.setting.k as usize;
    let fit = products_that_fit(s);
    let mut so_far = sum;
    let mut held = sum.total % n;
    let mut i = 0;
    while i < pairs {
        let count = ((n - held) as usize).min(pairs - i);
        held += count as u64;
        if overflows(fit, held as usize) {
            return Err(Refusal::Overflow);
        }
        so_far = add_batch(s, so_far, held, xs, ys, i, count);
        held = reopened(n, held);
        i += count;
    }
    Ok(so_far)
}

// How many pairs the open batch holds: at n it is full, and the next is empty.
fn reopened(n: u64, held: u64) -> u64
    requires { (0 < n) × (held ≤ n) }
    ensures { result ≡ held % n }
{
    if held < n { held } else { 0 }
}

// The next count pairs, from pair i on, after which the open batch holds held pairs. As soon as these are n, the word is split. It returns early, as the sum
// would be copied once more a batch where it is the value of an `if`.
fn add_batch(
    s: Accepted,
    sum: Sum,
    held: u64,
    xs: &[u16],
    ys: &[u16],
    i: usize,
    count: usize,
) -> Sum
    requires { OpenBatch s.setting sum held xs.now ys.now i count }
    ensures { result ≡ after_batch s.setting sum xs.now ys.now i count }
{
    let word = add_products(s.setting, xs, ys, i, count, sum.word);
    let residues = sum.residues;
    let next = Sum {
        total: sum.total + count as u64,
        word,
        residues,
    };
    if held == s.setting.n {
        return split_word(s, next);
    }
    next
}

// The word is split, its fields are added to the residues modulo p, and it is zero again.
fn split_word(s: Accepted, sum: Sum) -> Sum
    ensures { result ≡ split s.setting sum }
{
    let old = sum.residues;
    let mut new = sum.residues;
    add_residues(s, sum.word, &old, &mut new);
    Sum {
        total: sum.total,
        word: 0,
        residues: new,
    }
}

// (residue + field) mod p, for the fields of the word, into the first elements.
pub fn add_residues(s: Accepted, word: u64, residues: &[u16], out: &mut [u16])
    requires { (places s.setting ≤ length residues.now) × (places s.setting ≤ length out.old) }
    ensures { out.new ≡ filled (places s.setting) (closing_of s.setting.p (base s.setting) word residues.now) out.old }
{
    let p = s.setting.p;
    let q = s.base();
    let mut rest = word;
    for j in 0..s.places() {
        out[j] = ((u64::from(residues[j]) + rest % q) % p) as u16;
        rest >>= s.setting.t;
    }
}

// The word, and the products of count pairs from pair i on. The arms call one function with a constant, so that the packing is written out for it, which
// is faster.
fn add_products(s: Setting, xs: &[u16], ys: &[u16], i: usize, count: usize, word: u64) -> u64
    requires { Multiplying s.p s.t s.k xs.now ys.now i count word }
    ensures { result ≡ word + products s.p s.t s.k xs.now ys.now i count }
{
    match s.k {
        1 => add_words(s.p, s.t, 1, xs, ys, i, count, word),
        2 => add_words(s.p, s.t, 2, xs, ys, i, count, word),
        3 => add_words(s.p, s.t, 3, xs, ys, i, count, word),
        4 => add_words(s.p, s.t, 4, xs, ys, i, count, word),
        k => add_words(s.p, s.t, k, xs, ys, i, count, word),
    }
}

// Two pairs a turn, so that what a turn costs is shared. A `while`, as the last turn may have one pair.
fn add_words(
    p: u64,
    t: u64,
    k: u64,
    xs: &[u16],
    ys: &[u16],
    i: usize,
    count: usize,
    word: u64,
) -> u64
    requires { Multiplying p t k xs.now ys.now i count word }
    ensures { result ≡ word + products p t k xs.now ys.now i count }
{
    let mut sum = word;
    let mut r = 0;
    while r + 1 < count {
        sum = add_pair(p, t, k, xs, ys, i + r, sum);
        sum = add_pair(p, t, k, xs, ys, i + (r + 1), sum);
        r += 2;
    }
    if r < count {
        add_pair(p, t, k, xs, ys, i + r, sum)
    } else {
        sum
    }
}

// The word, and the product of pair j.
fn add_pair(p: u64, t: u64, k: u64, xs: &[u16], ys: &[u16], j: usize, word: u64) -> u64
    requires { Multiplying p t k xs.now ys.now j 1 word }
    ensures { result ≡ word + products p t k xs.now ys.now j 1 }
{
    let size = k as usize;
    let at = j * size;
    word + pack_taken(p, t, &xs[at..at + size]) * pack_taken(p, t, &ys[at..at + size])
}
