// What a line says before its lists: the numbers after the verb, what is lent, and whether a digest is asked for.
use crate::faults::Fault;
use crate::limits::LIST;
use crate::numbers::{read_all, read_exactly};
use crate::places::{check_end, colon, is_word, letter, part, word_end};
use crate::verbs::Form;
use settings::setting::Setting;

// The most numbers that a verb takes.
const MOST_NUMBERS: usize = 6;

#[derive(Clone, Copy)]
pub struct Call {
    pub numbers: [u64; MOST_NUMBERS],
    pub options: Options,
}

// How many elements are lent, where the line says so; and whether a digest is asked for, which has no value of its own.
#[derive(Clone, Copy)]
pub struct Options {
    pub lent: Option<usize>,
    pub is_digest: bool,
}

impl Call {
    // The first four numbers, where the verb takes a setting.
    pub fn setting(self) -> Setting {
        let [p, k, t, n, _, _] = self.numbers;
        Setting { p, k, t, n }
    }
}

impl Options {
    // The part of the list that is lent: all of it, where the line does not say.
    pub fn lend<'a, T>(self, list: &'a mut [T]) -> &'a mut [T] {
        let size = self.lent.unwrap_or(list.len()).min(list.len());
        &mut list[..size]
    }
}

pub fn read_call(text: &[u8], verb_end: usize, form: Form) -> Result<Call, Fault> {
    let head = part(text, 0, colon(text, 0));
    let end = letter(head, verb_end);
    let mut numbers = [0u64; MOST_NUMBERS];
    let size = form.numbers.min(MOST_NUMBERS);
    read_all(head, verb_end, end, u64::MAX, &mut numbers[..size])?;
    let options = read_options(head, end, form.writes)?;
    check_lists(text, form.lists)?;
    Ok(Call { numbers, options })
}

// As many lists as the verb takes.
fn check_lists(text: &[u8], lists: usize) -> Result<(), Fault> {
    let more = colon(text, lists);
    if more < text.len() {
        return Err(Fault::What(more));
    }
    if 0 < lists && text.len() <= colon(text, lists - 1) {
        return Err(Fault::What(text.len()));
    }
    Ok(())
}

// The words at the head's end: `into` and a number, and `digest`.
fn read_options(head: &[u8], start: usize, writes: bool) -> Result<Options, Fault> {
    if !writes && start < head.len() {
        return Err(Fault::What(start));
    }
    let mut lent = None;
    let mut rest = start;
    if is_word(head, start, b"into") {
        let from = word_end(head, start);
        rest = letter(head, from);
        let [size] = read_exactly::<1>(head, from, rest, LIST as u64)?;
        lent = Some(size as usize);
    }
    let is_digest = rest < head.len();
    if is_digest {
        read_digest(head, rest)?;
    }
    Ok(Options { lent, is_digest })
}

// Nothing may stand after `digest`.
fn read_digest(head: &[u8], start: usize) -> Result<(), Fault> {
    if !is_word(head, start, b"digest") {
        return Err(Fault::What(start));
    }
    check_end(head, word_end(head, start))
}
