// Check words for stacked labels (PDF417): words modulo 929, written at a level and checked. Built on the promises of the library.
#![tactic(auto)]

ghost use Rattle.labels.specs.Labels.{WritesLabel, ChecksLabel};

mod checks;
mod division;
mod generator;
pub mod limits;
mod powers;
mod roots;
mod setting;
mod word_lists;

use crate::checks::{check_count, check_data, check_label};
use crate::division::write_checks;
use crate::limits::MOST_WORDS;
use crate::roots::vanishes;
use crate::word_lists::turn;
use settings::refusals::Refusal;

// The label of the data words: these, and then the check words of the level: 19, 20, 21, 8, 10.
pub fn write(level: u64, content: &[u16], out: &mut [u16]) -> Result<usize, Refusal>
    ensures { WritesLabel level content.now out.old result out.new }
{
    check_data(level, content, out.len())?;
    let d = content.len();
    let n = d + check_count(level);
    out[..d].copy_from_slice(content);
    write_checks(content, &mut out[d..n]);
    Ok(n)
}

// Whether a label passes, exactly where its polynomial vanishes at each root of the level: an answer, not a refusal. 19, 20, 21, 8.
pub fn check(level: u64, words: &[u16]) -> Result<bool, Refusal>
    ensures { ChecksLabel level words.now result }
{
    check_label(level, words)?;
    let n = words.len();
    let mut polynomial = [0u16; MOST_WORDS];
    turn(words, &mut polynomial[..n]);
    Ok(vanishes(check_count(level), &polynomial[..n]))
}
