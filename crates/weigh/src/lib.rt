// The stages of a whole test (01, Bag sheet and figures), from its parts' rates to the weighted result, the fuel and the verdicts. Each is a definition of
// specs/ and a function that gives it, from ends to ends.
#![tactic(auto)]

ghost use Rattle.std.specs.Prelude.{◌≡◌, ◌≤◌};
ghost use Rattle.bag.specs.Fields.{most_limit};
ghost use Rattle.weigh.specs.Test.{weights_of, weighted_of, fuel_of, verdict_of};
ghost use Rattle.weigh.specs.Ranges.{WeightedRanges, FuelRanges};

use arith::{Ends, divided, scaled};

// The weights of a test's parts, in percent. A class of two parts has 0 for the third.
#[derive(Clone, Copy)]
pub struct Weights {
    pub first: u32,
    pub second: u32,
    pub third: u32,
}

// By class, from class 1.
const WEIGHTS: [Weights; 3] = [
    Weights {
        first: 50,
        second: 50,
        third: 0,
    },
    Weights {
        first: 30,
        second: 70,
        third: 0,
    },
    Weights {
        first: 25,
        second: 50,
        third: 25,
    },
];

pub fn weights_of(class: u32) -> Weights
    requires { (1 ≤ class) × (class ≤ 3) }
    ensures { result ≡ weights_of class }
{
    WEIGHTS[(class - 1) as usize]
}

// A gas over the whole test, in micrograms/km, from its rates in the parts.
#[tactic(auto, unfolding(crate::specs::Test::weighted_of))]
pub fn weighted(weights: Weights, first: Ends, second: Ends, third: Ends) -> Ends
    requires { WeightedRanges weights first second third }
    ensures { result ≡ weighted_of weights first second third }
{
    divided(
        stage::combination(
            weights.first,
            first,
            weights.second,
            second,
            weights.third,
            third,
        ),
        100,
    )
}

// In microlitres per 100 km, from the weighted gases that hold carbon.
#[tactic(auto, unfolding(crate::specs::Test::fuel_of))]
pub fn fuel(k: u32, f1: u32, f2: u32, f3: u32, density: u32, hc: Ends, co: Ends, co2: Ends) -> Ends
    requires { FuelRanges k f1 f2 f3 density hc co co2 }
    ensures { result ≡ fuel_of k f1 f2 f3 density hc co co2 }
{
    let carbon = stage::combination(f1, hc, f2, co, f3, co2);
    divided(scaled(i64::from(k), carbon), i64::from(10000 * density))
}

#[derive(Clone, Copy)]
pub enum Verdict {
    Pass,
    Fail,
    Undecided,
}

// How a weighted gas stands to its limit. The limit comes as the sheet has it, unsigned and up to 10^12, and is made signed here once.
#[tactic(auto, unfolding(crate::specs::Test::verdict_of))]
pub fn verdict_of(rate: Ends, limit: u64) -> Verdict
    requires { limit ≤ most_limit }
    ensures { result ≡ verdict_of rate limit }
{
    let most = stage::signed(limit);
    if rate.upper <= most {
        return Verdict::Pass;
    }
    if most < rate.lower {
        return Verdict::Fail;
    }
    Verdict::Undecided
}
