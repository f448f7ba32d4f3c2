// Numbers are read from a text of digits and blanks.
ghost use Rattle.std.specs.Prelude.{◌≡◌, true, ◌<◌, length};
ghost use Rattle.layout.specs.Decimals.{is_digit, numbers_in};
ghost use Rattle.polynomials.specs.Lists.{coefficient};
ghost use Rattle.texts.specs.Reading.{outcome, ReadsNumbers};
ghost use Rattle.texts.specs.Runs.{NumberSays, Clean, NumbersStand};

use crate::kinds::{Kind, kind_of};

// The lowest place at which reading stops: at a byte that is no digit and no blank, at a number that is too large, or at one for which there is no room.
#[derive(Clone, Copy)]
pub enum Stop {
    Stray(usize),
    Large(usize),
    Many(usize),
}

// The digits from a place on: the number, and where they end.
#[derive(Clone, Copy)]
pub struct Run {
    pub value: u64,
    pub end: usize,
}

// The numbers of the text, none of them above most, into the lent list: how many there are, or where reading stops.
pub fn read_numbers(text: &[u8], most: u64, out: &mut [u64]) -> Result<usize, Stop>
    ensures { ReadsNumbers most text.now out.old result out.new }
{
    let n = check_numbers(text, most, out.len())?;
    write_numbers(text, most, out);
    Ok(n)
}

// The text is looked through before anything is written, so that the list stays as it was where reading stops. The place jumps over each number, so the loop
// is no `for`.
fn check_numbers(text: &[u8], most: u64, room: usize) -> Result<usize, Stop>
    ensures { result ≡ outcome most room text.now }
{
    let mut n = 0;
    let mut i = 0;
    while i < text.len() {
        match kind_of(text[i]) {
            Kind::Digit => {
                let Some(run) = number_at(text, most, i) else {
                    return Err(Stop::Large(i));
                };
                if n == room {
                    return Err(Stop::Many(i));
                }
                n += 1;
                i = run.end;
            }
            Kind::Blank => i += 1,
            _ => return Err(Stop::Stray(i)),
        }
    }
    Ok(n)
}

// The numbers of a text in which nothing is bad. The place jumps over each number, so the loop is no `for`.
fn write_numbers(text: &[u8], most: u64, out: &mut [u64])
    requires { Clean most (length out.old) text.now }
    ensures { NumbersStand (numbers_in text.now) out.old out.new }
{
    let mut n = 0;
    let mut i = 0;
    while i < text.len() {
        if kind_of(text[i]) == Kind::Digit {
            let Some(run) = number_at(text, most, i) else {
                return;
            };
            out[n] = run.value;
            n += 1;
            i = run.end;
        } else {
            i += 1;
        }
    }
}

// The number that begins at place i: its value is put together as far as it is not above most.
fn number_at(text: &[u8], most: u64, i: usize) -> Option<Run>
    requires { (i < length text.now) × (is_digit (coefficient text.now i) ≡ true) }
    ensures { NumberSays most text.now i result }
{
    let mut value = 0;
    for end in i..text.len() {
        let code = text[end];
        if kind_of(code) != Kind::Digit {
            return Some(Run { value, end });
        }
        if most / 10 < value {
            return None;
        }
        let tens = value * 10;
        let digit = u64::from(code - b'0');
        if most - tens < digit {
            return None;
        }
        value = tens + digit;
    }
    Some(Run {
        value,
        end: text.len(),
    })
}
