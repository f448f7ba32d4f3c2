// calc: every call of the library by a line of text. It reads lines from standard input and answers each with one line, until the input ends.
#![tactic(auto)]

mod answer;
mod call;
mod copies;
mod faults;
mod given;
mod held;
mod input;
mod limits;
mod lists;
mod made;
mod numbers;
mod of_bytes;
mod of_doubles;
mod of_numbers;
mod of_polynomials;
mod of_words;
mod places;
mod reals;
mod shown;
mod shown_records;
mod verbs;

use crate::input::Input;
use crate::limits::ANSWER;
use std::io;
use std::io::Read;

// Room for an answer and its line end.
const OUT: usize = ANSWER + 1;

// How much is read at a time, and the longest line.
const PIECE: usize = 65536;

fn main(rt: HostRuntime) -> io::Result<()> {
    let mut line = [0u8; PIECE];
    let mut out = [0u8; OUT];
    answer_all(&rt, &mut rt.stdin(), &mut line, &mut out)
}

// A proved loop has to end, and nothing says that the input does. So the loop counts its turns, up to a number that no run uses up. Where a read fails the
// input has ended, as where it gives nothing, and then the error is told; and where nobody takes the answers nothing is read any more.
fn answer_all<R: Read>(
    rt: &impl Print,
    from: &mut R,
    line: &mut [u8],
    out: &mut [u8],
) -> io::Result<()> {
    let mut piece = [0u8; PIECE];
    let mut input = Input::first();
    for _ in 0..u64::MAX {
        match from.read(&mut piece) {
            Ok(0) => break,
            Ok(size) => {
                input.take_piece(rt, &piece[..size], line, out);
                if !input.is_heard() {
                    break;
                }
            }
            Err(e) => {
                input.end(rt, line, out);
                return Err(e);
            }
        }
    }
    input.end(rt, line, out);
    Ok(())
}
