// The product of two lists.
ghost use Rattle.std.specs.Prelude.{◌≡◌, Ok, ◌+◌, ◌^◌, ◌<◌, ◌≤◌, length};
ghost use Rattle.polynomials.specs.Lists.{product_length};
ghost use Rattle.settings.specs.Accepting.{Past};
ghost use Rattle.settings.specs.Limits.{longest_factor};
ghost use Rattle.packed.specs.Products.{factor_checks, Multiplies};
ghost use Rattle.packed.specs.Gathering.{ToMultiply, WritesProduct, Room};

use crate::arithmetic::rounded_up;
use crate::blocks::{pack_back, pack_blocks};
use crate::columns::{gather, write_remainders};
use settings::accepted::Accepted;
use settings::coefficients::check_coefficients;
use settings::limits::LONGEST_FACTOR;
use settings::refusals::Refusal;
use settings::setting::{Setting, accept};

// The longest list that is worked in short arrays.
const SHORT_FACTOR: usize = 256;

// Past a word for each coefficient of the second list: zeros around them, for the columns that are worked at once.
const ZEROS_AROUND: usize = 8;

const SHORT_WORDS: usize = SHORT_FACTOR + ZEROS_AROUND;

const LONGEST_WORDS: usize = LONGEST_FACTOR + ZEROS_AROUND;

// Past a sum for each coefficient of both lists: sums for five blocks of the largest k, which those columns reach beyond the product.
const SUMS_BEYOND: usize = 64;

const SHORT_SUMS: usize = 2 * SHORT_FACTOR + SUMS_BEYOND;

const LONGEST_SUMS: usize = 2 * LONGEST_FACTOR + SUMS_BEYOND;

// Coefficient j is the sum of a_i b_(j-i) modulo p, for two lists of 0 to 4,096 coefficients: 9, 8, 10, 18.
#[tactic(auto, unfolding(crate::specs::Products::product_checks))]
pub fn product(s: Setting, a: &[u16], b: &[u16], out: &mut [u16]) -> Result<usize, Refusal>
    ensures { Multiplies s a.now b.now out.old result out.new }
{
    let s = accept_factors(s, a, b, out.len())?;
    let m = product_length(a.len(), b.len());
    if 0 < m {
        multiply(s, a, b, out)?;
    }
    Ok(m)
}

// The setting's checks, then 9, 8, 10, where a list of len elements is lent for the product.
#[tactic(auto, unfolding(crate::specs::Products::factor_checks))]
fn accept_factors(s: Setting, a: &[u16], b: &[u16], len: usize) -> Result<Accepted, Refusal>
    ensures { Past (factor_checks s a.now b.now len) s result }
{
    let s = accept(s)?;
    if LONGEST_FACTOR < a.len() || LONGEST_FACTOR < b.len() {
        return Err(Refusal::Shape);
    }
    check_coefficients(s.setting.p, a, b)?;
    if len < product_length(a.len(), b.len()) {
        return Err(Refusal::Short);
    }
    Ok(s)
}

// la + lb - 1, or none if either list is empty.
fn product_length(m: usize, n: usize) -> usize
    requires { (m ≤ longest_factor) × (n ≤ longest_factor) }
    ensures { result ≡ product_length m n }
{
    if m == 0 || n == 0 { 0 } else { m + n - 1 }
}

// The product of two lists that are not empty. All of an array is set to zero first, so that short lists are worked in short ones.
fn multiply(s: Accepted, a: &[u16], b: &[u16], out: &mut [u16]) -> Result<(), Refusal>
    requires { ToMultiply s.setting a.now b.now out.old }
    ensures { (result ≡ Ok tt) × WritesProduct s.setting a.now b.now out.old out.new }
{
    if a.len() <= SHORT_FACTOR && b.len() <= SHORT_FACTOR {
        multiply_in_arrays::<SHORT_FACTOR, SHORT_WORDS, SHORT_SUMS>(s, a, b, out)
    } else {
        multiply_in_arrays::<LONGEST_FACTOR, LONGEST_WORDS, LONGEST_SUMS>(s, a, b, out)
    }
}

// In arrays of that many words: a word for a block of one coefficient or more, and what the columns need around them.
fn multiply_in_arrays<const XS: usize, const YS: usize, const SUMS: usize>(
    s: Accepted,
    a: &[u16],
    b: &[u16],
    out: &mut [u16],
) -> Result<(), Refusal>
    requires working { ToMultiply s.setting a.now b.now out.old }
    requires room { (length a.now ≤ XS) × (length b.now + 6 ≤ YS) × (length a.now + length b.now + 40 ≤ SUMS) }
    requires memory { (XS < 2 ^ 32) × (YS < 2 ^ 32) × (SUMS < 2 ^ 32) }
    ensures { (result ≡ Ok tt) × WritesProduct s.setting a.now b.now out.old out.new }
{
    let mut xs = [0u64; XS];
    let mut ys = [0u64; YS];
    let mut sums = [0u64; SUMS];
    multiply_in(s, a, b, &mut xs, &mut ys, &mut sums, out)
}

// In lists of words that are lent for it: each list is packed once, then the sums are gathered, then the output is written, once.
fn multiply_in(
    s: Accepted,
    a: &[u16],
    b: &[u16],
    xs: &mut [u64],
    ys: &mut [u64],
    sums: &mut [u64],
    out: &mut [u16],
) -> Result<(), Refusal>
    requires { ToMultiply s.setting a.now b.now out.old × Room s.setting a.now b.now xs.old ys.old sums.old }
    ensures { (result ≡ Ok tt) × WritesProduct s.setting a.now b.now out.old out.new }
{
    pack_blocks(s, a, rounded_up(a.len(), s.setting.k), xs);
    pack_back(s, b, rounded_up(b.len(), s.setting.k), ys);
    gather(s, a, b, xs, ys, sums)?;
    write_remainders(s, a.len() + b.len() - 1, sums, out);
    Ok(())
}
