// The verbs that are given words.
use crate::call::Call;
use crate::limits::{LIST, MARK};
use crate::shown::{put_accepted, put_named, put_writing};
use crate::verbs::Verb;
use settings::refusals::Refusal;
use words::{check_word, check_words, reduce, shifted_residues, unpack};

pub fn answer_words(call: Call, xs: &[u64], out: &mut [u8]) -> Result<usize, Refusal> {
    put_accepted(check_words(call.setting(), xs), out)
}

// Not inlined: its buffers take stack only while it runs.
#[inline(never)]
pub fn answer_word(verb: Verb, call: Call, word: u64, out: &mut [u8]) -> Result<usize, Refusal> {
    let s = call.setting();
    Ok(match verb {
        Verb::Unpack => put_writing(
            call.options,
            &mut [MARK; LIST],
            out,
            |list: &mut [u64]| unpack(s, word, list),
        ),
        Verb::Shifted => put_writing(
            call.options,
            &mut [MARK as u16; LIST],
            out,
            |list: &mut [u16]| shifted_residues(s, word, list),
        ),
        Verb::Reduce => put_named(b"word", reduce(s, word)?, out),
        _ => put_accepted(check_word(s, word), out)?,
    })
}
