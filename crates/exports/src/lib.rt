// The library for programs in C and Rust, which exports_c hands them: numbers and slices only. A setting is the four numbers p, k, t, n. Each function
// makes the calls of the library that its name says, and gives what they answer in numbers; it works nothing out itself.
#![tactic(auto)]

ghost use Rattle.settings.specs.Settings.{setting_of};
ghost use Rattle.exports.specs.Exports.{GivesWidth, GivesWord, GivesFields, GivesReduced, GivesTable, GivesReducedWords, GivesProduct, GivesSum, SumsTo, GivesLaneSum, GivesLaneReduced};

mod calls;
pub mod replies;

use crate::calls::feed_in_calls;
use crate::replies::{LaneReply, Reply};
use lane::make;
use packed::packing::pack;
use packed::products::product;
use packed::running::{close, fresh};
use settings::refusals::Refusal;
use settings::setting::{Setting, choose};
use tables::{build, reduce_by_table};
use words::{reduce, unpack};

// Choose: the value is the width.
pub fn sax_choose(p: u64, k: u64, n: u64) -> Reply
    ensures { GivesWidth p k n result }
{
    // The width is taken out by `let .. else`, as the project asks of whoever calls choose.
    let chosen = choose(p, k, n);
    let Ok(width) = chosen else {
        return Reply::from(chosen);
    };
    Reply {
        number: 0,
        place: 0,
        value: width,
    }
}

// Pack: the value is the word.
pub fn sax_pack(p: u64, k: u64, t: u64, n: u64, coefficients: &[u16]) -> Reply
    ensures { GivesWord (setting_of p k t n) coefficients.now result }
{
    Reply::from(pack(Setting { p, k, t, n }, coefficients))
}

// Unpack: the value is the number of fields written.
pub fn sax_unpack(p: u64, k: u64, t: u64, n: u64, word: u64, out: &mut [u64]) -> Reply
    ensures { GivesFields (setting_of p k t n) word out.old result out.new }
{
    Reply::from(unpack(Setting { p, k, t, n }, word, out))
}

// Reduce: the value is the reduced word.
pub fn sax_reduce(p: u64, k: u64, t: u64, n: u64, word: u64) -> Reply
    ensures { GivesReduced (setting_of p k t n) word result }
{
    Reply::from(reduce(Setting { p, k, t, n }, word))
}

// Build a table: the value is the number of bytes written.
pub fn sax_build_table(p: u64, k: u64, t: u64, n: u64, out: &mut [u8]) -> Reply
    ensures { GivesTable (setting_of p k t n) out.old result out.new }
{
    Reply::from(build(Setting { p, k, t, n }, out))
}

// Reduce by table: the value is the number of words written.
pub fn sax_reduce_by_table(
    p: u64,
    k: u64,
    t: u64,
    n: u64,
    table: &[u8],
    words: &[u64],
    out: &mut [u64],
) -> Reply
    ensures { GivesReducedWords (setting_of p k t n) table.now words.now out.old result out.new }
{
    Reply::from(reduce_by_table(Setting { p, k, t, n }, table, words, out))
}

// Product: the value is the number of coefficients written.
pub fn sax_product(p: u64, k: u64, t: u64, n: u64, a: &[u16], b: &[u16], out: &mut [u16]) -> Reply
    ensures { GivesProduct (setting_of p k t n) a.now b.now out.old result out.new }
{
    Reply::from(product(Setting { p, k, t, n }, a, b, out))
}

// Sum: a fresh record, fed with all pairs, size of them in a call, and closed; the value is the number of reductions. Neither the answer nor what is
// written depends on size.
pub fn sax_sum(
    p: u64,
    k: u64,
    t: u64,
    n: u64,
    xs: &[u16],
    ys: &[u16],
    size: usize,
    out: &mut [u16],
) -> Reply
    ensures { GivesSum (setting_of p k t n) xs.now ys.now out.old result out.new }
{
    Reply::from(sum(Setting { p, k, t, n }, xs, ys, size, out))
}

fn sum(s: Setting, xs: &[u16], ys: &[u16], size: usize, out: &mut [u16]) -> Result<u64, Refusal>
    ensures { SumsTo s xs.now ys.now out.old result out.new }
{
    let begun = fresh(s);
    begun.answer?;
    let fed = feed_in_calls(begun.running, xs, ys, size);
    fed.answer?;
    close(fed.running, out)
}

// Lane sum: the value is the word, unreduced. The lane record is made here.
pub fn sax_lane_sum(p: u64, k: u64, t: u64, n: u64, xs: &[u16], ys: &[u16]) -> LaneReply
    ensures { GivesLaneSum (setting_of p k t n) xs.now ys.now result }
{
    match make(Setting { p, k, t, n }) {
        Ok(made) => LaneReply::from(lane::sum(made, xs, ys)),
        Err(why) => LaneReply::from(Err(why)),
    }
}

// Lane reduction: the value is the reduced word.
pub fn sax_lane_reduce(p: u64, k: u64, t: u64, n: u64, word: f64) -> LaneReply
    ensures { GivesLaneReduced (setting_of p k t n) word result }
{
    match make(Setting { p, k, t, n }) {
        Ok(made) => LaneReply::from(lane::reduce(made, word)),
        Err(why) => LaneReply::from(Err(why)),
    }
}
