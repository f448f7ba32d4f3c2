// The answer to a line.
use crate::call::{Call, read_call};
use crate::faults::{Failure, Fault};
use crate::given::{Given, read_given};
use crate::held::Held;
use crate::limits::LIST;
use crate::numbers::number_after;
use crate::of_bytes::{answer_bytes, set_job};
use crate::of_doubles::answer_doubles;
use crate::of_numbers::answer_numbers;
use crate::of_polynomials::{answer_coefficients, set_record};
use crate::of_words::{answer_word, answer_words};
use crate::places::{colon, comment, filled, part, word_end};
use crate::shown::put_fault;
use crate::verbs::{Form, Verb, verb_at};
use texts::putting::put_refusal;

// The line's answer, put into the buffer, and its length. What a comment says is not looked at.
pub fn answer(held: &mut Held, line: &[u8], out: &mut [u8]) -> usize {
    let text = part(line, 0, comment(line));
    let start = filled(text, 0);
    if text.len() <= start {
        return 0;
    }
    match answer_text(held, text, start, out) {
        Ok(size) => size,
        Err(Failure::Fault(fault)) => put_fault(fault, out),
        Err(Failure::Refused(why)) => put_refusal(why.into(), out, 0),
    }
}

fn answer_text(
    held: &mut Held,
    text: &[u8],
    start: usize,
    out: &mut [u8],
) -> Result<usize, Failure> {
    let is_set = colon(text, 0) < text.len();
    let verb = verb_at(text, start, is_set).ok_or(Fault::What(start))?;
    let form = verb.form();
    let call = read_call(text, word_end(text, start), form)?;
    match form.first {
        None => Ok(answer_numbers(verb, held, call, out)?),
        Some(Given::Double) => answer_doubles(verb, held, call, text, out),
        Some(Given::OneWord) => Ok(answer_word(verb, call, number_after(text, 0)?, out)?),
        Some(_) => answer_lists(verb, held, call, form, text, out),
    }
}

fn answer_lists(
    verb: Verb,
    held: &mut Held,
    call: Call,
    form: Form,
    text: &[u8],
    out: &mut [u8],
) -> Result<usize, Failure> {
    let mut first = [0u64; LIST];
    let xs = read_given(text, 0, form.first, &mut first)?;
    let mut second = [0u64; LIST];
    let ys = read_given(text, 1, form.second, &mut second)?;
    Ok(match form.first {
        Some(Given::Words) => answer_words(call, xs, out)?,
        Some(Given::Residues) => set_record(held, call, xs, out),
        Some(Given::HeldBytes) => set_job(held, call, xs, out),
        Some(Given::Bytes) => answer_bytes(verb, held, call, xs, ys, out),
        _ => answer_coefficients(verb, held, call, xs, ys, out)?,
    })
}
