// Places in a line, and parts of it.
use crate::faults::Fault;
use texts::kinds::{Except, Kind, seek};

// What stands from one place up to another; nothing, where there is no such part.
pub fn part<'a>(text: &'a [u8], from: usize, to: usize) -> &'a [u8] {
    text.get(from..to).unwrap_or(&text[..0])
}

// The first place from i on that is no blank, or the end.
pub fn filled(text: &[u8], i: usize) -> usize {
    seek(text, i, Except { kind: Kind::Blank }).min(text.len())
}

// The first letter from i on, or the end.
pub fn letter(text: &[u8], i: usize) -> usize {
    seek(text, i, Kind::Letter).min(text.len())
}

// Where the letters from i on end.
pub fn word_end(text: &[u8], i: usize) -> usize {
    seek(text, i, Except { kind: Kind::Letter }).min(text.len())
}

// Whether this word, and no longer one, stands at place i.
pub fn is_word(text: &[u8], i: usize, word: &[u8]) -> bool {
    part(text, i, word_end(text, i)) == word
}

// Where the comment begins, or the end.
pub fn comment(text: &[u8]) -> usize {
    seek(text, 0, Kind::Comment)
}

// The colon after j others, or the end.
pub fn colon(text: &[u8], j: usize) -> usize {
    let mut at = next_colon(text, 0);
    for _ in 0..j {
        at = next_colon(text, at.saturating_add(1));
    }
    at.min(text.len())
}

fn next_colon(text: &[u8], i: usize) -> usize {
    seek(text, i, Kind::Colon)
}

// What stands after the colon that has j others before it, up to the next.
pub fn section<'a>(text: &'a [u8], j: usize) -> &'a [u8] {
    part(text, section_start(text, j), section_end(text, j))
}

pub fn section_start(text: &[u8], j: usize) -> usize {
    colon(text, j).saturating_add(1)
}

pub fn section_end(text: &[u8], j: usize) -> usize {
    colon(text, j.saturating_add(1))
}

// Nothing but blanks may stand from place i on.
pub fn check_end(text: &[u8], i: usize) -> Result<(), Fault> {
    let rest = filled(text, i);
    if rest < text.len() {
        return Err(Fault::What(rest));
    }
    Ok(())
}
