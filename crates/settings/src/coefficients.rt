// The coefficients that a call is given, and 8: one of them is p or more.
ghost use Rattle.std.specs.Prelude.{◌≡◌, ◌+◌, ◌^◌, ◌<◌, leb, length};
ghost use Rattle.std.specs.List.{position};
ghost use Rattle.polynomials.specs.Indices.{found};
ghost use Rattle.settings.specs.Limits.{word_bits};
ghost use Rattle.settings.specs.Coefficients.{first_bad_of_two, NoneAbove, FindsBad, ChecksCoefficients};

use crate::refusals::Refusal;

// 8, in two lists: the first is searched first, and an index in the second has the first's length added.
pub fn check_coefficients(p: u64, xs: &[u16], ys: &[u16]) -> Result<(), Refusal>
    ensures { ChecksCoefficients p xs.now ys.now result }
{
    match first_bad_of_two(p, xs, ys) {
        Some(bad) => Err(Refusal::Coefficient(bad)),
        None => Ok(()),
    }
}

// The index of the first coefficient that is not below p. It is searched for only where there is one: finding the largest takes several coefficients at
// once.
pub fn first_bad(p: u64, xs: &[u16]) -> Option<usize>
    ensures { FindsBad p xs.now result }
{
    if u64::from(largest(xs)) < p {
        return None;
    }
    search(p, xs)
}

fn search(p: u64, xs: &[u16]) -> Option<usize>
    ensures { result ≡ position (λ x. leb p x) xs.now }
{
    xs.iter().position(|x| p <= *x as u64)
}

// A bound of all coefficients: the largest.
fn largest(xs: &[u16]) -> u16
    ensures { NoneAbove result xs.now }
{
    let mut most = 0;
    for x in xs {
        most = most.max(*x);
    }
    most
}

fn first_bad_of_two(p: u64, xs: &[u16], ys: &[u16]) -> Option<usize>
    requires { length xs.now + length ys.now < 2 ^ word_bits }
    ensures { result ≡ found (first_bad_of_two p xs.now ys.now) (length xs.now + length ys.now) }
{
    if let Some(bad) = first_bad(p, xs) {
        return Some(bad);
    }
    first_bad(p, ys).map(|bad| xs.len() + bad)
}
