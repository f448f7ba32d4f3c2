// Bytes: numbers in them, bytes put one after the other, and pairs taken apart.
ghost use Rattle.std.specs.Prelude.{◌≡◌, ◌++◌, ◌+◌, ◌/◌, ◌≤◌, ◌<◌, length};
ghost use Rattle.polynomials.specs.Indices.{upto};
ghost use Rattle.polynomials.specs.Lists.{coefficient};
ghost use Rattle.layout.specs.Numbers.{number_at};
ghost use Rattle.settings.specs.Coefficients.{FindsBad, NoneAbove};
ghost use Rattle.jobs.specs.Jobs.{coefficients_in};
ghost use Rattle.jobs.specs.States.{held_bytes};
ghost use Rattle.jobs.specs.Apart.{Raised, block_size, Copying, Copied, Parting, TakenApart};

use crate::state::HELD;

// How many coefficients of each side are taken apart at a time: 256 pairs of the longest polynomials, and more of shorter ones.
pub const BLOCK: usize = 2048;

// The number in the byte at place i.
pub fn one(bytes: &[u8], i: usize) -> u64
    requires { i < length bytes.now }
    ensures { result ≡ number_at bytes.now i 1 }
{
    u64::from(bytes[i])
}

// The number in the four bytes from place i on, big-endian.
pub fn four(bytes: &[u8], i: usize) -> u64
    requires { i + 4 ≤ length bytes.now }
    ensures { result ≡ number_at bytes.now i 4 }
{
    u64::from(u32::from_be_bytes([bytes[i], bytes[i + 1], bytes[i + 2], bytes[i + 3]]))
}

// Coefficient i.
fn coefficient_at(bytes: &[u8], i: usize) -> u16
    requires { i < length bytes.now / 2 }
    ensures { result ≡ coefficient (coefficients_in bytes.now) i }
{
    u16::from_be_bytes([bytes[2 * i], bytes[2 * i + 1]])
}

// The index of the first coefficient that is p or more, in input order. It is searched for only where there is one: finding the largest takes several
// coefficients at once.
pub fn first_bad(p: u64, bytes: &[u8]) -> Option<usize>
    ensures { FindsBad p (coefficients_in bytes.now) result }
{
    if u64::from(largest(bytes)) < p {
        return None;
    }
    search(p, bytes)
}

// A bound of all coefficients: the largest. Sixteen are compared at a time, each with one of sixteen bounds, as the compiler takes these at once.
fn largest(bytes: &[u8]) -> u16
    ensures { NoneAbove result (coefficients_in bytes.now) }
{
    let end = bytes.len() / 2;
    let blocks = end / 16;
    let mut bounds = [0u16; 16];
    for block in 0..blocks {
        raise(bytes, 16 * block, &mut bounds);
    }
    let mut most = top(bounds);
    for i in 16 * blocks..end {
        most = most.max(coefficient_at(bytes, i));
    }
    most
}

// Each bound is raised to the coefficient at its place from index i on, where that is larger.
fn raise(bytes: &[u8], i: usize, bounds: &mut [u16])
    requires { (i + 16 ≤ length bytes.now / 2) × (length bounds.old ≡ 16) }
    ensures { Raised (coefficients_in bytes.now) i 16 bounds.old bounds.new }
{
    for j in 0..16 {
        bounds[j] = bounds[j].max(coefficient_at(bytes, i + j));
    }
}

// A bound of the bounds: the largest.
fn top(bounds: [u16; 16]) -> u16
    ensures { NoneAbove result bounds }
{
    let mut most = 0;
    for bound in bounds {
        most = most.max(bound);
    }
    most
}

fn search(p: u64, bytes: &[u8]) -> Option<usize>
    ensures { FindsBad p (coefficients_in bytes.now) result }
{
    for i in 0..bytes.len() / 2 {
        if p <= u64::from(coefficient_at(bytes, i)) {
            return Some(i);
        }
    }
    None
}

// The k coefficients from index i on, put from place j on.
fn copy(bytes: &[u8], i: usize, out: &mut [u16], j: usize, k: usize)
    requires { Copying bytes.now i j k × (length out.old ≡ block_size) }
    ensures { Copied (coefficients_in bytes.now) i j k out.old out.new }
{
    for r in 0..k {
        out[j + r] = coefficient_at(bytes, i + r);
    }
}

// The first m pairs, taken apart: their first polynomials into xs, their second into ys. Each k has its own call: where k is a number that is known,
// the copying is written out, which is faster.
pub fn take_apart(k: usize, m: usize, bytes: &[u8], xs: &mut [u16], ys: &mut [u16])
    requires { Parting k m bytes.now × (length xs.old ≡ block_size) × (length ys.old ≡ block_size) }
    ensures { TakenApart k m (coefficients_in bytes.now) xs.new ys.new }
{
    match k {
        1 => apart(1, m, bytes, xs, ys),
        2 => apart(2, m, bytes, xs, ys),
        3 => apart(3, m, bytes, xs, ys),
        4 => apart(4, m, bytes, xs, ys),
        5 => apart(5, m, bytes, xs, ys),
        6 => apart(6, m, bytes, xs, ys),
        7 => apart(7, m, bytes, xs, ys),
        8 => apart(8, m, bytes, xs, ys),
        _ => apart(k, m, bytes, xs, ys),
    }
}

fn apart(k: usize, m: usize, bytes: &[u8], xs: &mut [u16], ys: &mut [u16])
    requires { Parting k m bytes.now × (length xs.old ≡ block_size) × (length ys.old ≡ block_size) }
    ensures { TakenApart k m (coefficients_in bytes.now) xs.new ys.new }
{
    for r in 0..m {
        copy(bytes, 2 * r * k, xs, r * k, k);
        copy(bytes, (2 * r + 1) * k, ys, r * k, k);
    }
}

// The one after the other, and zeros after them.
pub fn joined(first: &[u8], second: &[u8]) -> [u8; HELD]
    requires { length first.now + length second.now ≤ held_bytes }
    ensures { result ≡ upto held_bytes (coefficient (first.now ++ second.now)) }
{
    let mut held = [0u8; HELD];
    let end = first.len() + second.len();
    held[..first.len()].copy_from_slice(first);
    held[first.len()..end].copy_from_slice(second);
    held
}
