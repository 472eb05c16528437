// The bag sheet and the result of a test as they cross the boundary: a struct of another crate that is marked #[repr(C)] as it is; what holds an enum in a
// form of its own here, in numbers.
#![tactic(auto)]

ghost use Rattle.std.specs.Prelude.{◌≡◌};
ghost use Rattle.crossing.specs.Sheet.{message_of, bag_of, sheet_part_of, sheet_of, with_nothing, result_out};

use arith::Ends;
use bag::{BagSheet, Densities, Efficiencies, Fuel, Limits, Part, Triple};
use emission::{Parts, TestResult};
use outcome::Outcome;
use reading::{Bag, Message};
use record::{Record, VerdictNumbers};
use refusal::Refusal;
use sides::Gases;

// A message of the analyser: kind 0 ppm, 1 percent, 2 over range, 3 not fitted, and every other over range too. The float comes as its bits.
#[repr(C)]
#[derive(Clone, Copy)]
pub struct MessageNumbers {
    pub kind: u32,
    pub bits: u32,
}

// The messages of one bag, or of its dilution air.
#[repr(C)]
#[derive(Clone, Copy)]
pub struct BagNumbers {
    pub hc: MessageNumbers,
    pub co: MessageNumbers,
    pub nox: MessageNumbers,
    pub co2: MessageNumbers,
    pub cutter: MessageNumbers,
}

// `bag::Part`, its messages as numbers.
#[repr(C)]
#[derive(Clone, Copy)]
pub struct SheetPart {
    pub pump: u32,
    pub revolutions: u32,
    pub barometer: u32,
    pub depression: u32,
    pub temperature: i32,
    pub humidity: u32,
    pub saturation: u32,
    pub distance: u32,
    pub density: Densities,
    pub bag: BagNumbers,
    pub air: BagNumbers,
}

// `bag::BagSheet`, its messages as numbers.
#[repr(C)]
#[derive(Clone, Copy)]
pub struct Sheet {
    pub class: u32,
    pub parts: u32,
    pub triple: Triple,
    pub fuel: Fuel,
    pub limits: Limits,
    pub efficiencies: Efficiencies,
    pub first: SheetPart,
    pub second: SheetPart,
    pub third: SheetPart,
}

// `emission::TestResult` beside the outcome, its weighted ends and verdicts as the result record has them. All is 0 where the outcome is a refusal, and 0 is no
// verdict, so that no gas passes then.
#[repr(C)]
#[derive(Clone, Copy)]
pub struct TestOutcome {
    pub outcome: Outcome,
    pub parts: Parts,
    pub weighted: Gases,
    pub verdicts: VerdictNumbers,
    pub has_nmhc: u32,
    pub fuel: Ends,
}

impl From<MessageNumbers> for Message {
    ghost from_gives = { λ r message. message ≡ message_of r };

    fn from(r: MessageNumbers) -> Message {
        match r.kind {
            0 => Message::Ppm(reading::float_of(r.bits)),
            1 => Message::Percent(reading::float_of(r.bits)),
            3 => Message::NotFitted,
            _ => Message::OverRange,
        }
    }
}

impl From<BagNumbers> for Bag {
    ghost from_gives = { λ r bag. bag ≡ bag_of r };

    #[tactic(auto, unfolding(crate::specs::Sheet::bag_of))]
    fn from(r: BagNumbers) -> Bag {
        Bag {
            hc: Message::from(r.hc),
            co: Message::from(r.co),
            nox: Message::from(r.nox),
            co2: Message::from(r.co2),
            cutter: Message::from(r.cutter),
        }
    }
}

impl From<SheetPart> for Part {
    ghost from_gives = { λ p part. part ≡ sheet_part_of p };

    #[tactic(auto, unfolding(crate::specs::Sheet::sheet_part_of))]
    fn from(p: SheetPart) -> Part {
        Part {
            pump: p.pump,
            revolutions: p.revolutions,
            barometer: p.barometer,
            depression: p.depression,
            temperature: p.temperature,
            humidity: p.humidity,
            saturation: p.saturation,
            distance: p.distance,
            density: p.density,
            bag: Bag::from(p.bag),
            air: Bag::from(p.air),
        }
    }
}

impl From<Sheet> for BagSheet {
    ghost from_gives = { λ s sheet. sheet ≡ sheet_of s };

    #[tactic(auto, unfolding(crate::specs::Sheet::sheet_of))]
    fn from(s: Sheet) -> BagSheet {
        BagSheet {
            class: s.class,
            parts: s.parts,
            triple: s.triple,
            fuel: s.fuel,
            limits: s.limits,
            efficiencies: s.efficiencies,
            first: Part::from(s.first),
            second: Part::from(s.second),
            third: Part::from(s.third),
        }
    }
}

#[tactic(auto, unfolding(crate::specs::Sheet::with_nothing))]
fn with_nothing(outcome: Outcome) -> TestOutcome
    ensures { result ≡ with_nothing outcome }
{
    TestOutcome {
        outcome,
        parts: Parts {
            first: emission::no_part(),
            second: emission::no_part(),
            third: emission::no_part(),
        },
        weighted: sides::no_gases(),
        verdicts: VerdictNumbers {
            hc: 0,
            co: 0,
            nox: 0,
            co2: 0,
            nmhc: 0,
        },
        has_nmhc: 0,
        fuel: arith::exactly(0),
    }
}

fn with_result(res: TestResult) -> TestOutcome
    ensures { result ≡ result_out (Ok res) }
{
    let record = Record::from(res);
    TestOutcome {
        outcome: Outcome::from(Ok(())),
        parts: res.parts,
        weighted: record.weighted,
        verdicts: record.verdicts,
        has_nmhc: record.has_nmhc,
        fuel: res.fuel,
    }
}

impl From<Result<TestResult, Refusal>> for TestOutcome {
    ghost from_gives = { λ answer out. out ≡ result_out answer };

    fn from(answer: Result<TestResult, Refusal>) -> TestOutcome {
        match answer {
            Ok(result) => with_result(result),
            Err(refusal) => with_nothing(Outcome::from(Err(refusal))),
        }
    }
}
