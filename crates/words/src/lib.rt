// A word and its places: unpack, shifted residues, reduce, and the test of words. A word has 2k-1 places, as many as a product has coefficients.
#![tactic(auto)]

ghost use Rattle.settings.specs.Accepting.{Past};
ghost use Rattle.words.specs.Places.{word_checks, places_checks, ChecksWord, ChecksWords, Unpacks, ShiftedResidues, Reduces};

mod fields;

use crate::fields::{first_bad_word, reduce_fields, split_fields, split_shifted, word_cause};
use settings::accepted::Accepted;
use settings::refusals::Refusal;
use settings::setting::{Setting, accept};

// The 2k-1 fields of a word, each below q: 11, 10.
pub fn unpack(s: Setting, word: u64, out: &mut [u64]) -> Result<usize, Refusal>
    ensures { Unpacks s word out.old result out.new }
{
    let s = accept_places(s, word, out.len())?;
    split_fields(s, word, out);
    Ok(s.places())
}

// u_i = floor(word / q^i) mod p, for each of the 2k-1 places: 11, 10.
pub fn shifted_residues(s: Setting, word: u64, out: &mut [u16]) -> Result<usize, Refusal>
    ensures { ShiftedResidues s word out.old result out.new }
{
    let s = accept_places(s, word, out.len())?;
    split_shifted(s, word, out);
    Ok(s.places())
}

// The word whose fields are the old ones modulo p: 11.
#[tactic(auto, unfolding(crate::specs::Places::reduce_answer))]
pub fn reduce(s: Setting, word: u64) -> Result<u64, Refusal>
    ensures { Reduces s word result }
{
    let s = accept_word(s, word)?;
    Ok(reduce_fields(s, word))
}

// The setting's checks, then 11.
pub fn check_word(s: Setting, word: u64) -> Result<(), Refusal>
    ensures { ChecksWord s word result }
{
    accept_word(s, word)?;
    Ok(())
}

// The setting's checks, then 11 of a list, with the index of its first bad word.
#[tactic(auto, unfolding(crate::specs::Places::words_checks))]
pub fn check_words(s: Setting, words: &[u64]) -> Result<(), Refusal>
    ensures { ChecksWords s words.now result }
{
    let s = accept(s)?;
    match first_bad_word(s, words) {
        Some(bad) => Err(Refusal::Word(bad)),
        None => Ok(()),
    }
}

#[tactic(auto, unfolding(crate::specs::Places::word_checks))]
fn accept_word(s: Setting, word: u64) -> Result<Accepted, Refusal>
    ensures { Past (word_checks s word) s result }
{
    let s = accept(s)?;
    if word_cause(s, word) {
        return Err(Refusal::Word(0));
    }
    Ok(s)
}

// The setting's checks, 11 of a word, then 10, where a list of len elements is lent for the places.
#[tactic(auto, unfolding(crate::specs::Places::places_checks))]
fn accept_places(s: Setting, word: u64, len: usize) -> Result<Accepted, Refusal>
    ensures { Past (places_checks s word len) s result }
{
    let s = accept_word(s, word)?;
    if len < s.places() {
        return Err(Refusal::Short);
    }
    Ok(s)
}
