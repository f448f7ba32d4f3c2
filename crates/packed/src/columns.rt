// The product of two lists, worked in the words of their blocks. Block z of the result, its column, is the sum of the products of block i of
// the first list and block z - i of the second. Up to n of them are added in one word before it is split, and its 2k-1 fields are added,
// unreduced, to 64-bit sums. Four columns are worked at once: they take the same words of the first list, and the second list lies backwards
// with zeros around it, so that they take words of it which lie side by side.
ghost use Rattle.std.specs.Prelude.{◌≡◌, Ok, ◌+◌, ◌-◌, ◌*◌, ◌^◌, ◌<◌, ◌≤◌, length};
ghost use Rattle.polynomials.specs.Indices.{filled};
ghost use Rattle.polynomials.specs.Places.{packed};
ghost use Rattle.polynomials.specs.Blocks.{spread};
ghost use Rattle.settings.specs.Limits.{largest_modulus, word_bits};
ghost use Rattle.packed.specs.Gathering.{sum_residue, Gathering, Sums, AddingColumns, AddsColumns, Batching, BatchWords, AddingWords, AddsWords, AddsWord};

use crate::arithmetic::rounded_up;
use crate::overflow::{overflows, products_that_fit};
use settings::accepted::Accepted;
use settings::refusals::Refusal;

const COLUMNS: usize = 4;

// The sums of one batch in each of four columns. Fields and not an array, as `BatchWords` and `AddsWords` name each.
#[derive(Clone, Copy)]
struct FourWords {
    first: u64,
    second: u64,
    third: u64,
    fourth: u64,
}

// All columns of the product of a and b, whose blocks lie in xs and, backwards, in ys, into the sums: coefficient j of the product, unreduced,
// is sum j. 18 would be given where a word overflows, and that is nowhere.
pub fn gather(
    s: Accepted,
    a: &[u16],
    b: &[u16],
    xs: &[u64],
    ys: &[u64],
    sums: &mut [u64],
) -> Result<(), Refusal>
    requires { Gathering s.setting a.now b.now xs.now ys.now sums.old }
    ensures { (result ≡ Ok tt) × Sums a.now b.now sums.old sums.new }
{
    let m = rounded_up(a.len(), s.setting.k);
    let n = rounded_up(b.len(), s.setting.k);
    let k = s.setting.k as usize;
    let fit = products_that_fit(s);
    for z in (0..m + n - 1).step_by(COLUMNS) {
        let start = (z + 1).saturating_sub(n);
        let count = (z + COLUMNS).min(m) - start;
        add_columns(
            s,
            fit,
            xs,
            ys,
            start,
            n.saturating_sub(z + 1),
            count,
            z * k,
            sums,
        )?;
    }
    Ok(())
}

// The products of count words, from i in xs and from j in ys on, added to the sums from place at on: four columns, each of the others a word of
// ys and k places further.
fn add_columns(
    s: Accepted,
    fit: u64,
    xs: &[u64],
    ys: &[u64],
    i: usize,
    j: usize,
    count: usize,
    at: usize,
    sums: &mut [u64],
) -> Result<(), Refusal>
    requires { AddingColumns s.setting xs.now ys.now i j count at sums.old × (s.setting.n ≤ fit) }
    ensures { (result ≡ Ok tt) × AddsColumns s.setting xs.now ys.now i j count at sums.old sums.new }
{
    let most = batch_size(s.setting.n);
    for done in (0..count).step_by(most) {
        let more = most.min(count - done);
        if overflows(fit, more) {
            return Err(Refusal::Overflow);
        }
        add_four_batches(s, xs, ys, i + done, j + done, more, at, sums);
    }
    Ok(())
}

// The same of one batch: four words, and each is split. The arms call one function with a constant, so that the splitting is written out for it, which is
// faster; a const parameter would need a second function for the k that have no arm.
fn add_four_batches(
    s: Accepted,
    xs: &[u64],
    ys: &[u64],
    i: usize,
    j: usize,
    count: usize,
    at: usize,
    sums: &mut [u64],
)
    requires { AddingColumns s.setting xs.now ys.now i j count at sums.old × (count ≤ s.setting.n) }
    ensures { AddsColumns s.setting xs.now ys.now i j count at sums.old sums.new }
{
    let words = batch(&xs[i..i + count], &ys[j..j + count + 3]);
    let t = s.setting.t;
    match s.setting.k {
        1 => add_four_words(t, 1, words, at, sums),
        2 => add_four_words(t, 2, words, at, sums),
        3 => add_four_words(t, 3, words, at, sums),
        4 => add_four_words(t, 4, words, at, sums),
        k => add_four_words(t, k, words, at, sums),
    }
}

// The sums of the products of the words of xs with those of ys from place 3, 2, 1 and 0 on.
fn batch(xs: &[u64], ys: &[u64]) -> FourWords
    requires { Batching xs.now ys.now }
    ensures { BatchWords xs.now ys.now result.first result.second result.third result.fourth }
{
    let mut first = 0;
    let mut second = 0;
    let mut third = 0;
    let mut fourth = 0;
    for (r, x) in xs.iter().enumerate() {
        first = add_product(first, *x, ys[3 + r]);
        second = add_product(second, *x, ys[2 + r]);
        third = add_product(third, *x, ys[1 + r]);
        fourth = add_product(fourth, *x, ys[r]);
    }
    FourWords {
        first,
        second,
        third,
        fourth,
    }
}

// sum + x y. The words are below 2^32, and said to be, so that one machine step multiplies several.
fn add_product(sum: u64, x: u64, y: u64) -> u64
    requires { (x < 2 ^ 32) × (y < 2 ^ 32) × (sum + x * y < 2 ^ word_bits) }
    ensures { result ≡ sum + x * y }
{
    sum + x % 4294967296 * (y % 4294967296)
}

// The 2k-1 fields of each word, added to the sums: of the first from place at on, and of each of the others k places further.
fn add_four_words(t: u64, k: u64, words: FourWords, at: usize, sums: &mut [u64])
    requires { AddingWords t k words.first words.second words.third words.fourth at sums.old }
    ensures { AddsWords t k words.first words.second words.third words.fourth at sums.old sums.new }
{
    let m = (2 * k - 1) as usize;
    let step = k as usize;
    add_fields(t, m, words.first, at, sums);
    add_fields(t, m, words.second, at + step, sums);
    add_fields(t, m, words.third, at + 2 * step, sums);
    add_fields(t, m, words.fourth, at + 3 * step, sums);
}

// The m lowest fields of the word, added to the sums from place at on.
fn add_fields(t: u64, m: usize, word: u64, at: usize, sums: &mut [u64])
    requires { (t < word_bits) × (at + m ≤ length sums.old) × (packed 1 sums.old + spread (2 ^ t) m 1 word < 2 ^ word_bits) }
    ensures { AddsWord t m word at sums.old sums.new }
{
    let q = 1u64 << t;
    let mut rest = word;
    for i in 0..m {
        sums[at + i] += rest % q;
        rest >>= t;
    }
}

// The m lowest sums modulo p, into the first m elements: one remainder a coefficient.
pub fn write_remainders(s: Accepted, m: usize, sums: &[u64], out: &mut [u16])
    requires { (m ≤ length sums.now) × (m ≤ length out.old) }
    ensures { out.new ≡ filled m (sum_residue s.setting.p sums.now) out.old }
{
    let p = s.setting.p;
    for j in 0..m {
        out[j] = (sums[j] % p) as u16;
    }
}

// Products in a batch: n, less what keeps it from a multiple of four, as the products are worked several at once.
fn batch_size(n: u64) -> usize
    requires { 1 ≤ n }
    ensures { (1 ≤ result) × (result ≤ n) }
{
    if n < 4 {
        n as usize
    } else {
        (n - n % 4) as usize
    }
}
