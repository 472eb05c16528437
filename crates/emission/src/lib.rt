// The emission sheet (01, Bag sheet and figures): a bag sheet becomes the full result of a test or its first refusal.
#![tactic(auto)]

ghost use Rattle.std.specs.Prelude.{◌≡◌, ◌≤◌};
ghost use Rattle.bag.specs.Fields.{most_limit};
ghost use Rattle.bag.specs.Sound.{RangedFuel, RangedLimits};
ghost use Rattle.part.specs.Ranges.{PartRanges};
ghost use Rattle.emission.specs.Test.{no_part, third_part, parts_in, weighted_gases, nmhc_verdict, verdicts_of, fuel_in, result_of, test_answer};
ghost use Rattle.late.specs.Ranges.{PartsRanges};
ghost use Rattle.emission.specs.Ranges.{RateSizes, WeighRanges, ResultRanges};

use arith::Ends;
use bag::{BagSheet, Fuel, Limits};
use cutter::Cutter;
use part::PartResult;
use refusal::Refusal;
use sides::{Gases, Sides, TestSides};
use weigh::{Verdict, Weights};

#[repr(C)]
#[derive(Clone, Copy)]
pub struct Parts {
    pub first: PartResult,
    pub second: PartResult,
    pub third: PartResult,
}

// A gas that the test does not have has no verdict. In a result only the fifth may be such; what numbers verdicts takes any.
#[derive(Clone, Copy)]
pub struct Verdicts {
    pub hc: Option<Verdict>,
    pub co: Option<Verdict>,
    pub nox: Option<Verdict>,
    pub co2: Option<Verdict>,
    pub nmhc: Option<Verdict>,
}

// Weighted results in micrograms/km, the fuel in microlitres per 100 km. A third part that the class does not have is all 0, and so is the fifth gas where the
// test has none.
#[derive(Clone, Copy)]
pub struct TestResult {
    pub has_nmhc: bool,
    pub parts: Parts,
    pub weighted: Gases,
    pub verdicts: Verdicts,
    pub fuel: Ends,
}

pub fn no_part() -> PartResult
    ensures { result ≡ no_part }
{
    PartResult {
        volume: arith::exactly(0),
        mass: sides::no_gases(),
        rate: sides::no_gases(),
    }
}

#[tactic(auto, unfolding(crate::specs::Test::third_part))]
fn third_part(s: BagSheet, c: Cutter, sides: Sides) -> PartResult
    requires { s.class ≡ 3 → PartRanges s.triple c s.third sides }
    ensures { result ≡ third_part s c sides }
{
    if s.class == 3 {
        part::part_of(s.triple, c, s.third, sides)
    } else {
        no_part()
    }
}

#[tactic(auto, unfolding(crate::specs::Test::parts_in))]
fn parts_in(s: BagSheet, c: Cutter, r: TestSides) -> Parts
    requires { PartsRanges s c r }
    ensures { result ≡ parts_in s c r }
{
    Parts {
        first: part::part_of(s.triple, c, s.first, r.first),
        second: part::part_of(s.triple, c, s.second, r.second),
        third: third_part(s, c, r.third),
    }
}

#[tactic(auto, unfolding(sides::specs::Gases::each, crate::specs::Test::weighted_gases))]
fn weighted_gases(w: Weights, first: Gases, second: Gases, third: Gases) -> Gases
    requires { WeighRanges w first second third }
    ensures { result ≡ weighted_gases w first second third }
{
    Gases {
        hc: weigh::weighted(w, first.hc, second.hc, third.hc),
        co: weigh::weighted(w, first.co, second.co, third.co),
        nox: weigh::weighted(w, first.nox, second.nox, third.nox),
        co2: weigh::weighted(w, first.co2, second.co2, third.co2),
        nmhc: weigh::weighted(w, first.nmhc, second.nmhc, third.nmhc),
    }
}

// The fifth gas's verdict, where the test has it.
#[tactic(auto, unfolding(crate::specs::Test::nmhc_verdict))]
fn nmhc_verdict(has_nmhc: bool, rate: Ends, limit: u64) -> Option<Verdict>
    requires { limit ≤ most_limit }
    ensures { result ≡ nmhc_verdict has_nmhc rate limit }
{
    if has_nmhc {
        Some(weigh::verdict_of(rate, limit))
    } else {
        None
    }
}

#[tactic(auto, unfolding(crate::specs::Test::each_verdict, crate::specs::Test::verdicts_of))]
fn verdicts_of(has_nmhc: bool, weighted: Gases, limits: Limits) -> Verdicts
    requires { RangedLimits limits }
    ensures { result ≡ verdicts_of has_nmhc weighted limits }
{
    Verdicts {
        hc: Some(weigh::verdict_of(weighted.hc, limits.hc)),
        co: Some(weigh::verdict_of(weighted.co, limits.co)),
        nox: Some(weigh::verdict_of(weighted.nox, limits.nox)),
        co2: Some(weigh::verdict_of(weighted.co2, limits.co2)),
        nmhc: nmhc_verdict(has_nmhc, weighted.nmhc, limits.nmhc),
    }
}

fn fuel_in(f: Fuel, weighted: Gases) -> Ends
    requires { (RangedFuel f) × (RateSizes weighted) }
    ensures { result ≡ fuel_in f weighted }
{
    weigh::fuel(
        f.k,
        f.hc,
        f.co,
        f.co2,
        f.density,
        weighted.hc,
        weighted.co,
        weighted.co2,
    )
}

#[tactic(auto, unfolding(crate::specs::Test::result_of))]
fn result_of(s: BagSheet, has_nmhc: bool, parts: Parts) -> TestResult
    requires { ResultRanges s parts }
    ensures { result ≡ result_of s has_nmhc parts }
{
    let w = weigh::weights_of(s.class);
    let weighted = weighted_gases(w, parts.first.rate, parts.second.rate, parts.third.rate);
    TestResult {
        has_nmhc,
        parts,
        weighted,
        verdicts: verdicts_of(has_nmhc, weighted, s.limits),
        fuel: fuel_in(s.fuel, weighted),
    }
}

// The full result of a test, or its first refusal: 10 and 11, then 12, then 13, 14 and 19.
#[tactic(auto, unfolding(crate::specs::Test::read_answer, crate::specs::Test::test_answer))]
pub fn test(s: BagSheet) -> Result<TestResult, Refusal>
    ensures { result ≡ test_answer s }
{
    bag::judge(s)?;
    let readings = sides::readings_in(s)?;
    let c = cutter::cutter_of(s);
    late::judge(s, c, readings)?;
    Ok(result_of(s, c.fitted, parts_in(s, c, readings)))
}
