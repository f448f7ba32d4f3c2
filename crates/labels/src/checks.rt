// The checks of a label, in their order.
ghost use Rattle.std.specs.Prelude.{◌≡◌, ◌≤◌};
ghost use Rattle.settings.specs.Refusals.{says};
ghost use Rattle.settings.specs.Coefficients.{coefficient_check};
ghost use Rattle.labels.specs.Labels.{modulus, highest_level, check_count, write_checks, read_checks};

use crate::limits::{HIGHEST_LEVEL, MODULUS, MOST_WORDS};
use settings::coefficients::check_coefficients;
use settings::refusals::Refusal;

// 2^(s+1), for level s.
pub fn check_count(level: u64) -> usize
    requires { level ≤ highest_level }
    ensures { result ≡ check_count level }
{
    2usize << level
}

// Of the data words, where a list of len words is lent for the label: 19, 20, 21, 8, 10.
#[tactic(auto, unfolding(crate::specs::Labels::write_checks))]
pub fn check_data(level: u64, content: &[u16], len: usize) -> Result<(), Refusal>
    ensures { says result ≡ write_checks level content.now len }
{
    if HIGHEST_LEVEL < level {
        return Err(Refusal::Level);
    }
    let m = check_count(level);
    if content.is_empty() {
        return Err(Refusal::Few);
    }
    if MOST_WORDS - m < content.len() {
        return Err(Refusal::Many);
    }
    check_each(content)?;
    if len < content.len() + m {
        return Err(Refusal::Short);
    }
    Ok(())
}

// Of the words of a label: 19, 20, 21, 8.
#[tactic(auto, unfolding(crate::specs::Labels::read_checks))]
pub fn check_label(level: u64, words: &[u16]) -> Result<(), Refusal>
    ensures { says result ≡ read_checks level words.now }
{
    if HIGHEST_LEVEL < level {
        return Err(Refusal::Level);
    }
    if words.len() <= check_count(level) {
        return Err(Refusal::Few);
    }
    if MOST_WORDS < words.len() {
        return Err(Refusal::Many);
    }
    check_each(words)
}

// 8, by the library's search of two lists, the second of which is empty.
fn check_each(words: &[u16]) -> Result<(), Refusal>
    ensures { says result ≡ coefficient_check modulus words.now }
{
    check_coefficients(u64::from(MODULUS), words, &[])
}
