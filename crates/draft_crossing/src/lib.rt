// What crosses the boundary of mending a draft: its answer in numbers alone. Beside a refusal both counts are 0.
#![tactic(auto)]

ghost use Rattle.std.specs.Prelude.{◌≡◌};
ghost use Rattle.draft_crossing.specs.Mend.{mend_out};

use draft::Mended;
use outcome::Outcome;
use refusal::Refusal;

#[repr(C)]
#[derive(Clone, Copy)]
pub struct MendOutcome {
    pub outcome: Outcome,
    pub changed: u32,
    pub left: u32,
}

impl From<Result<Mended, Refusal>> for MendOutcome {
    ghost from_gives = { λ answer out. out ≡ mend_out answer };

    fn from(answer: Result<Mended, Refusal>) -> MendOutcome {
        match answer {
            Ok(mended) => MendOutcome {
                outcome: Outcome::from(Ok(())),
                changed: mended.changed,
                left: mended.left,
            },
            Err(refusal) => MendOutcome {
                outcome: Outcome::from(Err(refusal)),
                changed: 0,
                left: 0,
            },
        }
    }
}
