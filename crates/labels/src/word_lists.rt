// Lists of words, one after the other. That two lists are of one size is asked by each, since no type of two lent lists says it.
ghost use Rattle.std.specs.Prelude.{◌≡◌, reverse, ◌≤◌, ◌<◌, length};
ghost use Rattle.polynomials.specs.Indices.{filled};
ghost use Rattle.polynomials.specs.Lists.{coefficient, Below};
ghost use Rattle.polynomials.specs.Places.{minus};
ghost use Rattle.divisions.specs.Divisions.{less};
ghost use Rattle.labels.specs.Labels.{modulus};
ghost use Rattle.labels.specs.Working.{opposites};

use crate::limits::MODULUS;

// (x - y) modulo 929.
pub fn take_away(x: u16, y: u16) -> u16
    requires { (x < modulus) × (y < modulus) }
    ensures { result ≡ minus modulus x y }
{
    if x < y { x + MODULUS - y } else { x - y }
}

// The last word first: words that stand highest power first become a polynomial, and back.
pub fn turn(xs: &[u16], out: &mut [u16])
    requires { length out.old ≡ length xs.now }
    ensures { out.new ≡ reverse xs.now }
{
    out.copy_from_slice(xs);
    out.reverse();
}

// Zero less each word, modulo 929, the last word first.
pub fn turn_opposites(xs: &[u16], out: &mut [u16])
    requires { (length out.old ≡ length xs.now) × Below modulus xs.now }
    ensures { out.new ≡ reverse (opposites xs.now) }
{
    let n = xs.len();
    for i in 0..n {
        out[i] = take_away(0, xs[n - 1 - i]);
    }
}

// Takes xs away, word by word, modulo 929.
pub fn subtract(xs: &[u16], out: &mut [u16])
    requires { (length out.old ≡ length xs.now) × Below modulus out.old × Below modulus xs.now }
    ensures { out.new ≡ less modulus out.old xs.now }
{
    for i in 0..out.len() {
        out[i] = take_away(out[i], xs[i]);
    }
}
