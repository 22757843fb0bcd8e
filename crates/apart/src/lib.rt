// An answer taken apart, for callers that take no enum: the number of refusal, and the value, or zeros after a refusal. The C interface calls
// these, `apart` for its forms with values behind pointers. No second answer fits (proofs/Once.antt, `apart_only`, `refusal_of_only`).
#![tactic(auto)]

ghost use Rattle.std.specs.Prelude.{◌≡◌, MatchResult};
ghost use Rattle.rules.specs.Refusals.{read};

use rules::Refusal;

// The number that an answer stands for, and its value: the zeros lent, where it is a refusal.
pub fn apart<T: Copy>(answer: Result<T, Refusal>, zeros: T) -> (u32, T)
    ensures number { result.0 ≡ (read zeros answer).number }
    ensures value { result.1 ≡ (read zeros answer).value }
{
    match answer {
        Ok(value) => (0, value),
        Err(refusal) => (u32::from(refusal), zeros),
    }
}

// The number of refusal of an answer, 0 for one that is not refused.
pub fn refusal_of<T: Drop, E: Into<u32> + Drop>(answer: Result<T, E>) -> u32
    ensures { MatchResult answer (λ _. result ≡ 0) (λ refusal. E.converts refusal result) }
{
    match answer {
        Ok(_) => 0,
        Err(refusal) => refusal.into(),
    }
}
