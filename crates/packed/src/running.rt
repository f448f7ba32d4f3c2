// The running record: pairs of polynomials are fed in calls of any size, and closing gives the sum of their products.
ghost use Rattle.std.specs.Prelude.{◌≡◌, false, ◌<◌};
ghost use Rattle.settings.specs.Accepting.{Past};
ghost use Rattle.settings.specs.Answers.{fine};
ghost use Rattle.settings.specs.Refusals.{says};
ghost use Rattle.settings.specs.Settings.{setting_checks, places};
ghost use Rattle.packed.specs.Running.{record_cause, record_check, sum_cause, residue_most, residues_cause, fields_cause, field_most, pair_checks, close_checks, fed, Freshens, Feeds, Closes};

use crate::arithmetic::rounded_up;
use crate::batches::{add_pairs, add_residues};
use settings::accepted::Accepted;
use settings::coefficients::check_coefficients;
use settings::limits::{MOST_PAIRS, RESIDUE_PLACES};
use settings::refusals::Refusal;
use settings::setting::{Setting, accept, check};
use words::check_word;

// What was added up: how many pairs, the word of the open batch, unreduced, and the residues of the full batches.
#[derive(Clone, Copy, PartialEq, Eq)]
pub struct Sum {
    pub total: u64,
    pub word: u64,
    pub residues: [u16; RESIDUE_PLACES],
}

#[derive(Clone, Copy, PartialEq, Eq)]
pub struct Record {
    pub setting: Setting,
    pub sum: Sum,
}

// A fresh record, and beside it whether its setting is refused: there is a record in either case, as `Freshens` promises, and so it is no `Result`.
#[derive(Clone, Copy)]
pub struct Begun {
    pub running: Record,
    pub answer: Result<(), Refusal>,
}

// A record, handed back by value, and how many pairs a feed took, or why none: beside a refusal it is the old one, as `Feeds` promises.
#[derive(Clone, Copy)]
pub struct Fed {
    pub running: Record,
    pub answer: Result<usize, Refusal>,
}

// The setting's checks only. All but the setting is zero, also in what is handed back beside a refusal.
pub fn fresh(s: Setting) -> Begun
    ensures { Freshens s result }
{
    Begun {
        running: Record {
            setting: s,
            sum: Sum {
                total: 0,
                word: 0,
                residues: [0u16; RESIDUE_PLACES],
            },
        },
        answer: check(s),
    }
}

// Two flat lists, k coefficients per polynomial: 12, 9, 13, 8, 18. The answer is how many pairs were taken. A refusal hands the record back as it was.
pub fn feed(running: Record, xs: &[u16], ys: &[u16]) -> Fed
    ensures { Feeds running xs.now ys.now result }
{
    let mut after = running;
    let answer = feed_into(&mut after, xs, ys);
    Fed {
        running: after,
        answer,
    }
}

// The same in place.
fn feed_into(running: &mut Record, xs: &[u16], ys: &[u16]) -> Result<usize, Refusal>
    ensures { Feeds running.old xs.now ys.now (fed running.new result) }
{
    let s = accept_record(*running)?;
    check_pairs(*running, xs, ys)?;
    running.sum = add_pairs(s, running.sum, xs, ys)?;
    Ok(xs.len() / s.setting.k as usize)
}

// The 2k-1 coefficients, (residue + field) mod p: 12, 10. The answer is how many reductions the sum took. The record may be fed further.
pub fn close(running: Record, out: &mut [u16]) -> Result<u64, Refusal>
    ensures { Closes running out.old result out.new }
{
    let s = accept_close(running, out.len())?;
    let sum = running.sum;
    add_residues(s, sum.word, &sum.residues, out);
    Ok(rounded_up(sum.total as usize, s.setting.n) as u64)
}

// 9, 13, 8, for a coherent record. 12 comes first, and feed asks it itself.
#[tactic(auto, unfolding(crate::specs::Running::pair_checks))]
fn check_pairs(running: Record, xs: &[u16], ys: &[u16]) -> Result<(), Refusal>
    requires { record_cause running ≡ false }
    ensures { says result ≡ pair_checks running xs.now ys.now }
{
    let k = running.setting.k;
    if xs.len() != ys.len() || xs.len() as u64 % k != 0 {
        return Err(Refusal::Shape);
    }
    if MOST_PAIRS < running.sum.total + xs.len() as u64 / k {
        return Err(Refusal::Full);
    }
    check_coefficients(running.setting.p, xs, ys)
}

// 12, 10, where a list of len elements is lent for the coefficients.
#[tactic(auto, unfolding(crate::specs::Running::close_checks))]
fn accept_close(running: Record, len: usize) -> Result<Accepted, Refusal>
    ensures { Past (close_checks running len) running.setting result }
{
    let s = accept_record(running)?;
    if len < s.places() {
        return Err(Refusal::Short);
    }
    Ok(s)
}

// 12 Record: one that is not coherent. What refuses its setting is not told.
#[tactic(auto, unfolding(crate::specs::Running::record_cause))]
fn accept_record(running: Record) -> Result<Accepted, Refusal>
    ensures { Past (record_check running) running.setting result }
{
    match accept(running.setting) {
        Ok(s) if !sum_cause(s, running.sum) => Ok(s),
        _ => Err(Refusal::Record),
    }
}

// Its part that is not the setting's, which nothing refuses.
fn sum_cause(s: Accepted, sum: Sum) -> bool
    requires { setting_checks s.setting ≡ fine }
    ensures { result ≡ sum_cause s.setting sum }
{
    MOST_PAIRS < sum.total
        || residues_cause(s, &sum.residues)
        || fields_cause(s, sum.total % s.setting.n, sum.word)
        || check_word(s.setting, sum.word).is_err()
}

// A residue of p or more, or one from index 2k-1 on that is not zero. A loop: with `any` the proof did not close.
fn residues_cause(s: Accepted, residues: &[u16]) -> bool
    ensures { result ≡ residues_cause s.setting residues.now }
{
    for (j, residue) in residues.iter().enumerate() {
        if residue_most(s, j) < u64::from(*residue) {
            return true;
        }
    }
    false
}

// p-1, and 0 from index 2k-1 on.
fn residue_most(s: Accepted, j: usize) -> u64
    ensures { result ≡ residue_most s.setting j }
{
    if j < s.places() { s.setting.p - 1 } else { 0 }
}

// A field above what pairs, fewer than a batch, can add up to. A loop, as the rest of the word is carried on.
fn fields_cause(s: Accepted, pairs: u64, word: u64) -> bool
    requires { pairs < s.setting.n }
    ensures { result ≡ fields_cause s.setting pairs word }
{
    let q = s.base();
    let mut rest = word;
    for j in 0..s.places() {
        if field_most(s, pairs, j) < rest % q {
            return true;
        }
        rest >>= s.setting.t;
    }
    false
}

// r min(j+1, 2k-1-j) (p-1)^2, for r pairs.
fn field_most(s: Accepted, pairs: u64, j: usize) -> u64
    requires { (pairs < s.setting.n) × (j < places s.setting) }
    ensures { result ≡ field_most s.setting pairs j }
{
    let m = s.setting.p - 1;
    let products = (j + 1).min(s.places() - j) as u64;
    pairs * (products * (m * m))
}
