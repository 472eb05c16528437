// What crosses the boundary in place of a refusal: its number and place, in numbers alone.
#![tactic(auto)]

ghost use Rattle.std.specs.Prelude.{◌≡◌};
ghost use Rattle.outcome.specs.Outcome.{outcome_of};

use refusal::{Entry, Refusal};

// A refusal's number and place, or zeros where all was accepted.
#[repr(C)]
#[derive(Clone, Copy)]
pub struct Outcome {
    pub number: u32,
    pub at: u32,
    pub within: u32,
    pub side: u32,
}

impl From<Result<(), Refusal>> for Outcome {
    ghost from_gives = { λ judged o. o ≡ outcome_of judged };

    fn from(judged: Result<(), Refusal>) -> Outcome {
        match judged {
            Ok(()) => Outcome {
                number: 0,
                at: 0,
                within: 0,
                side: 0,
            },
            Err(refusal) => {
                let Entry { number, place } = Entry::from(refusal);
                Outcome {
                    number,
                    at: place.at,
                    within: place.within,
                    side: place.side,
                }
            }
        }
    }
}
