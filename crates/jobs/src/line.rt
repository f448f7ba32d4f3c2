// The line, put into a lent buffer as far as that goes, since there is no heap. The answer is the place after it, as texts::putting has it.
ghost use Rattle.texts.specs.Putting.{Puts};
ghost use Rattle.jobs.specs.Lines.{sums_line, refused_line};
ghost use Rattle.jobs.specs.States.{adding_line, line_of};
ghost use Rattle.jobs.specs.Adding.{Adding};

use crate::coherent::state_cause;
use crate::state::{Stage, State};
use packed::running::{Record, close};
use settings::limits::RESIDUE_PLACES;
use settings::refusals::{Numbered, Refusal};
use settings::setting::Setting;
use texts::putting::{put, put_list, put_number, put_refusal};

#[tactic(auto, unfolding(crate::specs::States::line_of))]
pub fn put_line(state: State, out: &mut [u8]) -> usize
    ensures { Puts 0 (line_of state) out.old result out.new }
{
    if state_cause(state) {
        return refused_line(Refusal::Record.into(), out);
    }
    match state.stage {
        Stage::Header => refused_line(Refusal::Job.into(), out),
        Stage::Pairs => pairs_line(state.running, state.pairs, out),
        Stage::Refused(why) => refused_line(why, out),
    }
}

// Where pairs are added up: an early end, or the sums. No refusal of close can arise: the record is coherent, and 15 places are enough.
fn pairs_line(running: Record, pairs: u64, out: &mut [u8]) -> usize
    requires { Adding running.setting running.sum pairs }
    ensures { Puts 0 (adding_line running pairs) out.old result out.new }
{
    let s = running.setting;
    if running.sum.total < pairs {
        return refused_line(Refusal::Job.into(), out);
    }
    let mut sums = [0u16; RESIDUE_PLACES];
    match close(running, &mut sums) {
        Ok(reductions) => {
            let places = (2 * s.k - 1) as usize;
            sums_line(s, pairs, reductions, &sums[..places], out)
        }
        Err(_) => refused_line(Refusal::Record.into(), out),
    }
}

fn sums_line(s: Setting, pairs: u64, reductions: u64, sums: &[u16], out: &mut [u8]) -> usize
    ensures { Puts 0 (sums_line s pairs reductions sums.now) out.old result out.new }
{
    let numbers = [s.k, s.t, s.n, pairs, reductions];
    let mut at = put_number(s.p, out, 0);
    at = put_list(&numbers, out, at);
    at = put(b":", out, at);
    at = put_list(sums, out, at);
    put(b"\n", out, at)
}

fn refused_line(why: Numbered, out: &mut [u8]) -> usize
    ensures { Puts 0 (refused_line why.number why.place) out.old result out.new }
{
    let at = put_refusal(why, out, 0);
    put(b"\n", out, at)
}
