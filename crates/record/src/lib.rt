// The result record (02, M-105): what a lot reads of the result of a test, in numbers alone. The boundary hands the same numbers to a bench.
#![tactic(auto)]

ghost use Rattle.std.specs.Prelude.{◌≡◌};
ghost use Rattle.record.specs.Record.{verdict_number, verdict_numbers, record_of};

use emission::{TestResult, Verdicts};
use sides::Gases;
use weigh::Verdict;

// 1 pass, 2 fail, 3 undecided; 0 where there is no verdict.
#[repr(C)]
#[derive(Clone, Copy)]
pub struct VerdictNumbers {
    pub hc: u32,
    pub co: u32,
    pub nox: u32,
    pub co2: u32,
    pub nmhc: u32,
}

// The weighted ends in micrograms/km, and the verdicts. `has_nmhc` is 0 where the test has no fifth gas, whose ends then say nothing.
#[repr(C)]
#[derive(Clone, Copy)]
pub struct Record {
    pub weighted: Gases,
    pub verdicts: VerdictNumbers,
    pub has_nmhc: u32,
}

fn verdict_number(v: Option<Verdict>) -> u32
    ensures { result ≡ verdict_number v }
{
    match v {
        Some(Verdict::Pass) => 1,
        Some(Verdict::Fail) => 2,
        Some(Verdict::Undecided) => 3,
        None => 0,
    }
}

impl From<Verdicts> for VerdictNumbers {
    ghost from_gives = { λ v out. out ≡ verdict_numbers v };

    #[tactic(auto, unfolding(crate::specs::Record::each_number, crate::specs::Record::verdict_numbers))]
    fn from(v: Verdicts) -> VerdictNumbers {
        VerdictNumbers {
            hc: verdict_number(v.hc),
            co: verdict_number(v.co),
            nox: verdict_number(v.nox),
            co2: verdict_number(v.co2),
            nmhc: verdict_number(v.nmhc),
        }
    }
}

impl From<TestResult> for Record {
    ghost from_gives = { λ res out. out ≡ record_of res };

    fn from(res: TestResult) -> Record {
        Record {
            weighted: res.weighted,
            verdicts: VerdictNumbers::from(res.verdicts),
            has_nmhc: u32::from(res.has_nmhc),
        }
    }
}
