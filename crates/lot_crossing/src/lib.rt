// What crosses the boundary of the lot sheet: its answer in numbers alone. Beside a refusal all figures are 0.
#![tactic(auto)]

ghost use Rattle.std.specs.Prelude.{◌≡◌};
ghost use Rattle.lot_crossing.specs.Lot.{no_gas, gas_out, refused_out, sheet_out, lot_out};

use arith::Ends;
use lot::LotSheet;
use outcome::Outcome;
use refusal::Refusal;
use tally::{GasSheet, Mean};

// Where no record is counted there is no mean and no worst record, and both stand as 0.
#[repr(C)]
#[derive(Clone, Copy)]
pub struct LotGas {
    pub passed: u32,
    pub failed: u32,
    pub undecided: u32,
    pub worst: u32,
    pub sum: Ends,
    pub mean: Ends,
}

#[repr(C)]
#[derive(Clone, Copy)]
pub struct LotOutcome {
    pub outcome: Outcome,
    pub hc: LotGas,
    pub co: LotGas,
    pub nox: LotGas,
    pub co2: LotGas,
    pub nmhc: LotGas,
}

impl From<GasSheet> for LotGas {
    ghost from_gives = { λ g out. out ≡ gas_out g };

    #[tactic(auto, unfolding(crate::specs::Lot::gas_out))]
    fn from(g: GasSheet) -> LotGas {
        let mean = g.mean.unwrap_or(Mean {
            ends: arith::exactly(0),
            worst: 0,
        });
        LotGas {
            passed: g.passed,
            failed: g.failed,
            undecided: g.undecided,
            worst: mean.worst,
            sum: g.sum,
            mean: mean.ends,
        }
    }
}

#[tactic(auto, unfolding(crate::specs::Lot::sheet_out))]
fn sheet_out(s: LotSheet) -> LotOutcome
    ensures { result ≡ sheet_out s }
{
    LotOutcome {
        outcome: Outcome::from(Ok(())),
        hc: LotGas::from(s.hc),
        co: LotGas::from(s.co),
        nox: LotGas::from(s.nox),
        co2: LotGas::from(s.co2),
        nmhc: LotGas::from(s.nmhc),
    }
}

#[tactic(auto, unfolding(crate::specs::Lot::no_gas))]
fn no_gas() -> LotGas
    ensures { result ≡ no_gas }
{
    LotGas {
        passed: 0,
        failed: 0,
        undecided: 0,
        worst: 0,
        sum: arith::exactly(0),
        mean: arith::exactly(0),
    }
}

#[tactic(auto, unfolding(crate::specs::Lot::refused_out))]
fn refused_out(refusal: Refusal) -> LotOutcome
    ensures { result ≡ refused_out refusal }
{
    LotOutcome {
        outcome: Outcome::from(Err(refusal)),
        hc: no_gas(),
        co: no_gas(),
        nox: no_gas(),
        co2: no_gas(),
        nmhc: no_gas(),
    }
}

impl From<Result<LotSheet, Refusal>> for LotOutcome {
    ghost from_gives = { λ answer out. out ≡ lot_out answer };

    fn from(answer: Result<LotSheet, Refusal>) -> LotOutcome {
        match answer {
            Ok(sheet) => sheet_out(sheet),
            Err(refusal) => refused_out(refusal),
        }
    }
}
