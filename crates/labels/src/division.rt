// Division by the generator, by the schoolbook.
ghost use Rattle.std.specs.Prelude.{◌≡◌, [], ◌∷◌, ◌-◌, length};
ghost use Rattle.polynomials.specs.Lists.{coefficient, product};
ghost use Rattle.divisions.specs.Divisions.{degree, less, divided};
ghost use Rattle.labels.specs.Labels.{modulus};
ghost use Rattle.labels.specs.Working.{Divisor, Dividing, CheckRoom, CheckWork, check_words};

use crate::generator::make_generator;
use crate::limits::{MOST_CHECKS, MOST_WORDS};
use crate::setting::LABELS;
use crate::word_lists::{subtract, turn, turn_opposites};
use packed::products::product;

// The check words of data words, for as many as out has places.
pub fn write_checks(content: &[u16], out: &mut [u16])
    requires { CheckRoom content.now out.old }
    ensures { out.new ≡ check_words (length out.old) content.now }
{
    let m = out.len();
    let n = m + content.len();
    let mut generator = [0u16; MOST_CHECKS + 1];
    make_generator(&mut generator[..m + 1]);
    let mut rest = [0u16; MOST_WORDS];
    write_checks_in(&generator[..m + 1], content, &mut rest[..n], out);
}

// In a list of zeros that is lent for it: data times x^m is divided, and zero less the remainder is written, highest power first.
fn write_checks_in(g: &[u16], content: &[u16], rest: &mut [u16], out: &mut [u16])
    requires { CheckWork g.now content.now rest.old out.old }
    ensures { out.new ≡ check_words (length out.old) content.now }
{
    let m = out.len();
    turn(content, &mut rest[m..]);
    divide(g, rest);
    turn_opposites(&rest[..m], out);
}

// From the highest power down. What is left below the generator's highest power is the remainder.
fn divide(g: &[u16], rest: &mut [u16])
    requires { Dividing g.now rest.old }
    ensures { rest.new ≡ divided modulus g.now (length rest.old - degree g.now) rest.old }
{
    let size = g.len();
    for i in (0..rest.len() + 1 - size).rev() {
        cancel(g, &mut rest[i..i + size]);
    }
}

// A step: the multiple of g that has the same highest coefficient is taken away.
fn cancel(g: &[u16], part: &mut [u16])
    requires { Divisor g.now part.old }
    ensures { part.new ≡ less modulus part.old (product (coefficient part.old (degree g.now) ∷ []) g.now) }
{
    let size = g.len();
    let highest = [part[size - 1]];
    let mut multiple = [0u16; MOST_CHECKS + 1];
    // The setting is accepted, the words are below the modulus, and there is room: no refusal can arise.
    let _ = product(LABELS, &highest, g, &mut multiple);
    subtract(&multiple[..size], part);
}
