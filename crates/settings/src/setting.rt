// The setting: modulus, coefficients per packed polynomial, bits per place, products added before a reduction.
ghost use Rattle.std.specs.Prelude.{◌≡◌, Some, None};
ghost use Rattle.polynomials.specs.Indices.{pick};
ghost use Rattle.settings.specs.Settings.{outside, modulus_cause, length_cause, batch_cause, width_cause, narrow_cause, room_cause, batch_top, span_of, InChoice, InRange, Checks};
ghost use Rattle.settings.specs.Accepting.{Accepts};
ghost use Rattle.settings.specs.Choices.{escapes, smallest_width, none_cause, Chooses};

use crate::accepted::Accepted;
use crate::limits::{LARGEST_BATCH, LARGEST_MODULUS, MOST_COEFFICIENTS, WIDEST, WORD_BITS};
use crate::refusals::Refusal;

#[derive(Clone, Copy, PartialEq, Eq)]
pub struct Setting {
    pub p: u64,
    pub k: u64,
    pub t: u64,
    pub n: u64,
}

// A setting that 1 to 4 leave. 5 and 6 are worked out for such a one only, where nothing overflows.
#[derive(Clone, Copy)]
struct Ranged {
    s: Setting,
    ghost in_range: { InRange s },
}

// Checks 1 to 6, in order.
#[tactic(auto, unfolding(crate::specs::Settings::setting_checks))]
pub fn check(s: Setting) -> Result<(), Refusal>
    ensures { Checks s result }
{
    if modulus_cause(s.p) {
        return Err(Refusal::Modulus);
    }
    if length_cause(s.k) {
        return Err(Refusal::Length);
    }
    if batch_cause(s.n) {
        return Err(Refusal::Batch);
    }
    if width_cause(s.t) {
        return Err(Refusal::Width);
    }
    let ranged = Ranged { s };
    if ranged.narrow_cause() {
        return Err(Refusal::Narrow);
    }
    if ranged.room_cause() {
        return Err(Refusal::Room);
    }
    Ok(())
}

// The same checks, and the setting as an accepted one.
pub fn accept(s: Setting) -> Result<Accepted, Refusal>
    ensures { Accepts s result }
{
    check(s)?;
    Ok(Accepted { setting: s })
}

// Checks 1, 2, 3 and 7; the answer is the smallest width that passes 5 and 6.
#[tactic(auto, unfolding(crate::specs::Choices::choose_answer, crate::specs::Choices::none_cause))]
pub fn choose(p: u64, k: u64, n: u64) -> Result<u64, Refusal>
    ensures { Chooses p k n result }
{
    if modulus_cause(p) {
        return Err(Refusal::Modulus);
    }
    if length_cause(k) {
        return Err(Refusal::Length);
    }
    if batch_cause(n) {
        return Err(Refusal::Batch);
    }
    match smallest_width(p, k, n) {
        Some(t) => Ok(t),
        None => Err(Refusal::None),
    }
}

// The first width from 1 to 63 that escapes 5 and 6.
fn smallest_width(p: u64, k: u64, n: u64) -> Option<u64>
    requires { InChoice p k n }
    ensures { result ≡ pick (none_cause p k n) None (Some (smallest_width p k n)) }
{
    for t in 1..WIDEST + 1 {
        let ranged = Ranged {
            s: Setting { p, k, t, n },
        };
        if ranged.escapes() {
            return Some(t);
        }
    }
    None
}

// The causes, each under its number and name.

impl Ranged {
    #[tactic(auto, unfolding(crate::specs::Choices::escapes))]
    fn escapes(self) -> bool
        ensures { result ≡ escapes self.s.p self.s.k self.s.n self.s.t }
    {
        !self.narrow_cause() && !self.room_cause()
    }

    // 5 Narrow
    fn narrow_cause(self) -> bool
        ensures { result ≡ narrow_cause self.s }
    {
        1u64 << self.s.t <= self.batch_top()
    }

    // 6 Room
    fn room_cause(self) -> bool
        ensures { result ≡ room_cause self.s }
    {
        WORD_BITS <= self.span()
    }

    // n k (p-1)^2
    fn batch_top(self) -> u64
        ensures { result ≡ batch_top self.s }
    {
        let m = self.s.p - 1;
        self.s.n * self.s.k * (m * m)
    }

    // (2k-1) t
    fn span(self) -> u64
        ensures { result ≡ span_of self.s }
    {
        (2 * self.s.k - 1) * self.s.t
    }
}

// 1 Modulus
fn modulus_cause(p: u64) -> bool
    ensures { result ≡ modulus_cause p }
{
    is_outside(p, 2, LARGEST_MODULUS)
}

// 2 Length
fn length_cause(k: u64) -> bool
    ensures { result ≡ length_cause k }
{
    is_outside(k, 1, MOST_COEFFICIENTS)
}

// 3 Batch
fn batch_cause(n: u64) -> bool
    ensures { result ≡ batch_cause n }
{
    is_outside(n, 1, LARGEST_BATCH)
}

// 4 Width
fn width_cause(t: u64) -> bool
    ensures { result ≡ width_cause t }
{
    is_outside(t, 1, WIDEST)
}

fn is_outside(x: u64, low: u64, high: u64) -> bool
    ensures { result ≡ outside low high x }
{
    x < low || high < x
}
