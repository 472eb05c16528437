// What crosses the boundary of the live engine: the state that a bench keeps between two calls and hands back, and what a call answers, in numbers alone.
#![tactic(auto)]

ghost use Rattle.std.specs.Prelude.{◌≡◌};
ghost use Rattle.prompt_crossing.specs.State.{no_engine, begin_out, second_out, told_by, end_out};

use live::Given;
use outcome::Outcome;
use prompt::{Engine, Received};
use refusal::Refusal;
use tenths::{LeastTenths, Tenths};
use vehicle::VehicleSheet;

// The refusal that has ended it, zeros while it runs, and the engine.
#[repr(C)]
#[derive(Clone, Copy)]
pub struct LiveState {
    pub outcome: Outcome,
    pub engine: Engine,
}

#[repr(C)]
#[derive(Clone, Copy)]
pub struct LiveAnswer {
    pub state: LiveState,
    pub given: Given,
}

#[repr(C)]
#[derive(Clone, Copy)]
pub struct LiveEnd {
    pub outcome: Outcome,
    pub given: Given,
}

fn no_engine() -> Engine
    ensures { result ≡ no_engine }
{
    let none = LeastTenths {
        above: 0,
        not_below: 0,
    };
    Engine {
        version: 0,
        v: VehicleSheet {
            power: 0,
            mass: 0,
            rated: 0,
            idle: 0,
            gears: 0,
            ndv: [0; 8],
            rules: 0,
        },
        tenths: Tenths {
            above: [0; 7],
            not_below: [0; 7],
            last: none,
            gears: 0,
            first: 0,
        },
        live: live::fresh(),
    }
}

// Refusals 1 and 5 to 7, or a state with nothing received.
#[tactic(auto, unfolding(crate::specs::State::begin_out, prompt::specs::Prompt::judge_begin))]
pub fn begin(version: u32, v: VehicleSheet) -> LiveState
    ensures { result ≡ begin_out version v }
{
    // a refused vehicle returns here: by one `match` of both, the call took 1,043 bytes of stack, and 1,024 are promised
    let v = match prompt::read(version, v) {
        Ok(v) => v,
        Err(refusal) => {
            return LiveState {
                outcome: Outcome::from(Err(refusal)),
                engine: no_engine(),
            };
        }
    };
    LiveState {
        outcome: Outcome::from(Ok(())),
        engine: prompt::begin(version, v),
    }
}

// What a call answers, in numbers alone: beside a refusal nothing is given.
fn told(answer: Result<Given, Refusal>) -> LiveEnd
    ensures { result ≡ told_by answer }
{
    match answer {
        Ok(given) => LiveEnd {
            outcome: Outcome::from(Ok(())),
            given,
        },
        Err(refusal) => LiveEnd {
            outcome: Outcome::from(Err(refusal)),
            given: live::nothing(),
        },
    }
}

// A second: refusals 2, 4, 20 and 9, or the state with it and what is given. A state that was refused stays so.
#[tactic(auto, unfolding(crate::specs::State::second_out))]
pub fn second(state: LiveState, s: Received) -> LiveAnswer
    ensures { result ≡ second_out state s }
{
    let outcome = state.outcome;
    if outcome.number != 0 {
        return LiveAnswer {
            state,
            given: live::nothing(),
        };
    }
    let mut engine = state.engine;
    let answer = told(prompt::hear(&mut engine, s));
    let outcome = answer.outcome;
    let given = answer.given;
    LiveAnswer {
        state: LiveState { outcome, engine },
        given,
    }
}

// The end: refusal 2, or what is left.
#[tactic(auto, unfolding(crate::specs::State::end_out))]
pub fn end(state: LiveState) -> LiveEnd
    ensures { result ≡ end_out state }
{
    let outcome = state.outcome;
    if outcome.number != 0 {
        return LiveEnd {
            outcome,
            given: live::nothing(),
        };
    }
    told(prompt::end(state.engine))
}
