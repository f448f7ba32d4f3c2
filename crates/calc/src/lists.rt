// The lists of a line. A list is typed out, or a word says what it is; `but` changes elements of either.
use crate::faults::Fault;
use crate::made::made;
use crate::numbers::{read, read_few};
use crate::places::{filled, is_word, letter, word_end};
use texts::kinds::{Kind, kind_of};

// The most numbers after `but`: pairs of a place and an element.
const CHANGES: usize = 16;

// The elements of a section's list, none above most: the part of the buffer that has them. Places are those of the section.
pub fn read_list<'a>(
    section: &[u8],
    most: u64,
    out: &'a mut [u64],
) -> Result<&'a mut [u64], Fault> {
    let start = filled(section, 0);
    if section.len() <= start {
        return Ok(&mut out[..0]);
    }
    let end = letter(section, word_end(section, start));
    let list = if kind_of(section[start]) == Kind::Letter {
        made(section, start, end, most, out)?
    } else {
        read(section, 0, end, most, out)?
    };
    if end < section.len() {
        change(section, end, most, list)?;
    }
    Ok(list)
}

// What the word at `start` changes in the list.
fn change(section: &[u8], start: usize, most: u64, list: &mut [u64]) -> Result<(), Fault> {
    if !is_word(section, start, b"but") {
        return Err(Fault::What(start));
    }
    let numbers = word_end(section, start);
    let end = letter(section, numbers);
    let mut room = [0u64; CHANGES];
    let pairs = read_few(section, numbers, end, u64::MAX, &mut room)?;
    let (changes, odd) = pairs.as_chunks::<2>();
    if !odd.is_empty() || end < section.len() {
        return Err(Fault::What(end));
    }
    for [place, element] in changes {
        if list.len() as u64 <= *place {
            return Err(Fault::What(start));
        }
        if most < *element {
            return Err(Fault::Large(start));
        }
        list[*place as usize] = *element;
    }
    Ok(())
}
