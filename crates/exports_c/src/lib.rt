// The archive for programs in C and Rust: the functions of exports under C's calling convention and their own names. Each calls the function of its name, and
// promises what that one promises.
#![tactic(auto)]

ghost use Rattle.settings.specs.Settings.{setting_of};
ghost use Rattle.exports.specs.Exports.{GivesWidth, GivesWord, GivesFields, GivesReduced, GivesTable, GivesReducedWords, GivesProduct, GivesSum, GivesLaneSum, GivesLaneReduced};

use exports::replies::{LaneReply, Reply};

// Choose: the value is the width.
#[unsafe(no_mangle)]
pub extern "C" fn sax_choose(p: u64, k: u64, n: u64) -> Reply
    ensures { GivesWidth p k n result }
{
    exports::sax_choose(p, k, n)
}

// Pack: the value is the word.
#[unsafe(no_mangle)]
pub extern "C" fn sax_pack(p: u64, k: u64, t: u64, n: u64, coefficients: &[u16]) -> Reply
    ensures { GivesWord (setting_of p k t n) coefficients.now result }
{
    exports::sax_pack(p, k, t, n, coefficients)
}

// Unpack: the value is the number of fields written.
#[unsafe(no_mangle)]
pub extern "C" fn sax_unpack(p: u64, k: u64, t: u64, n: u64, word: u64, out: &mut [u64]) -> Reply
    ensures { GivesFields (setting_of p k t n) word out.old result out.new }
{
    exports::sax_unpack(p, k, t, n, word, out)
}

// Reduce: the value is the reduced word.
#[unsafe(no_mangle)]
pub extern "C" fn sax_reduce(p: u64, k: u64, t: u64, n: u64, word: u64) -> Reply
    ensures { GivesReduced (setting_of p k t n) word result }
{
    exports::sax_reduce(p, k, t, n, word)
}

// Build a table: the value is the number of bytes written.
#[unsafe(no_mangle)]
pub extern "C" fn sax_build_table(p: u64, k: u64, t: u64, n: u64, out: &mut [u8]) -> Reply
    ensures { GivesTable (setting_of p k t n) out.old result out.new }
{
    exports::sax_build_table(p, k, t, n, out)
}

// Reduce by table: the value is the number of words written.
#[unsafe(no_mangle)]
pub extern "C" fn sax_reduce_by_table(
    p: u64,
    k: u64,
    t: u64,
    n: u64,
    table: &[u8],
    words: &[u64],
    out: &mut [u64],
) -> Reply
    ensures { GivesReducedWords (setting_of p k t n) table.now words.now out.old result out.new }
{
    exports::sax_reduce_by_table(p, k, t, n, table, words, out)
}

// Product: the value is the number of coefficients written.
#[unsafe(no_mangle)]
pub extern "C" fn sax_product(
    p: u64,
    k: u64,
    t: u64,
    n: u64,
    a: &[u16],
    b: &[u16],
    out: &mut [u16],
) -> Reply
    ensures { GivesProduct (setting_of p k t n) a.now b.now out.old result out.new }
{
    exports::sax_product(p, k, t, n, a, b, out)
}

// Sum: a fresh record, fed with all pairs, size of them in a call, and closed; the value is the number of reductions. Neither the answer nor what is
// written depends on size.
#[unsafe(no_mangle)]
pub extern "C" fn sax_sum(
    p: u64,
    k: u64,
    t: u64,
    n: u64,
    xs: &[u16],
    ys: &[u16],
    size: usize,
    out: &mut [u16],
) -> Reply
    ensures { GivesSum (setting_of p k t n) xs.now ys.now out.old result out.new }
{
    exports::sax_sum(p, k, t, n, xs, ys, size, out)
}

// Lane sum: the value is the word, unreduced. The lane record is made here.
#[unsafe(no_mangle)]
pub extern "C" fn sax_lane_sum(p: u64, k: u64, t: u64, n: u64, xs: &[u16], ys: &[u16]) -> LaneReply
    ensures { GivesLaneSum (setting_of p k t n) xs.now ys.now result }
{
    exports::sax_lane_sum(p, k, t, n, xs, ys)
}

// Lane reduction: the value is the reduced word.
#[unsafe(no_mangle)]
pub extern "C" fn sax_lane_reduce(p: u64, k: u64, t: u64, n: u64, word: f64) -> LaneReply
    ensures { GivesLaneReduced (setting_of p k t n) word result }
{
    exports::sax_lane_reduce(p, k, t, n, word)
}
