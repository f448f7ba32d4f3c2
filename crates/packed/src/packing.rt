// Coefficients packed into a word.
ghost use Rattle.packed.specs.Packing.{Packs};

use crate::arithmetic::pack_taken;
use settings::coefficients::first_bad;
use settings::refusals::Refusal;
use settings::setting::{Setting, check};

// Exactly k coefficients: 9, 8. The word is the sum of a_i q^i.
#[tactic(auto, unfolding(crate::specs::Packing::pack_answer))]
pub fn pack(s: Setting, coefficients: &[u16]) -> Result<u64, Refusal>
    ensures { Packs s coefficients.now result }
{
    check(s)?;
    if coefficients.len() as u64 != s.k {
        return Err(Refusal::Shape);
    }
    if let Some(bad) = first_bad(s.p, coefficients) {
        return Err(Refusal::Coefficient(bad));
    }
    Ok(pack_taken(s.p, s.t, coefficients))
}
