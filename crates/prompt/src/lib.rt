// Prompting the rider live (02, M-110): the live engine with its vehicle, and what it refuses. It is begun for a version and a vehicle, hears one second at a time, and is
// ended.
#![tactic(auto)]

ghost use Rattle.std.specs.Prelude.{◌≡◌, Ok};
ghost use Rattle.vehicle.specs.Accepted.{Accepted};
ghost use Rattle.prompt.specs.Prompt.{judge_begin, begun, may_be, judge_second, after, heard, ended, answer_by};

use live::{Given, Live};
use refusal::Refusal;
use tenths::Tenths;
use vehicle::{Vehicle, VehicleSheet};

// What is kept: the version that the trace was named with, the vehicle and its shift speeds in whole tenths, and the seconds so far.
#[repr(C)]
#[derive(Clone, Copy)]
pub struct Engine {
    pub version: u32,
    pub v: VehicleSheet,
    pub tenths: Tenths,
    pub live: Live,
}

// A second as the house file has it.
#[repr(C)]
#[derive(Clone, Copy)]
pub struct Received {
    pub speed: u16,
    pub flags: u8,
    pub fourth: u8,
}

// Refusals 1 and 5 to 7, or the vehicle.
#[tactic(auto, unfolding(crate::specs::Prompt::judge_begin))]
pub fn read(version: u32, v: VehicleSheet) -> Result<Vehicle, Refusal>
    ensures { Accepted v (judge_begin version v) result }
{
    if !house::is_readable(version as usize) {
        return Err(Refusal::Header);
    }
    vehicle::read(v)
}

// An engine for a vehicle.
pub fn begin(version: u32, v: Vehicle) -> Engine
    ensures { result ≡ begun version v.sheet }
{
    Engine {
        version,
        v: v.sheet,
        tenths: tenths::of_vehicle(v),
        live: live::fresh(),
    }
}

// What refusal 20 asks of a second.
fn may_be(e: &Engine, s: Received) -> bool
    ensures { result ≡ may_be e.now s }
{
    let marked = house::marked_in(e.version as usize, s.flags);
    !((e.v.rules == 2) & marked)
}

// Refusals 2, 4, 20 and 9.
#[tactic(auto, unfolding(crate::specs::Prompt::judge_second))]
fn judge_second(e: &Engine, s: Received) -> Result<(), Refusal>
    ensures { result ≡ judge_second e.now s }
{
    let received = e.live.received;
    if 2000 <= received {
        return Err(Refusal::Count);
    }
    let place = received + 1;
    if !house::good_in(e.version as usize, s.speed as usize, s.flags, s.fourth) {
        return Err(Refusal::Second { second: place });
    }
    if !may_be(e, s) {
        return Err(Refusal::Marked { second: place });
    }
    let close = own::is_close(e.tenths, s.flags, s.speed);
    refusal::check(!close, Refusal::TooClose { second: place })
}

// The engine with a second more.
#[tactic(auto, unfolding(crate::specs::Prompt::judge_second))]
fn take(e: &mut Engine, s: Received)
    requires { judge_second e.old s ≡ Ok tt }
    ensures { e.new ≡ after e.old s }
{
    let gear = own::own_second(e.tenths, s.flags, s.speed);
    e.live = live::step(e.live, s.speed, s.flags, gear);
}

// A second: what is given, or a refusal, and then the engine is as it was.
#[tactic(auto, unfolding(crate::specs::Prompt::heard))]
pub fn hear(engine: &mut Engine, second: Received) -> Result<Given, Refusal>
    ensures { (result ≡ answer_by (heard engine.old second).judged (heard engine.old second).given)
        × (engine.new ≡ (heard engine.old second).engine) }
{
    judge_second(engine, second)?;
    let given = live::give(engine.v, engine.live, second.flags);
    take(engine, second);
    Ok(given)
}

// The end of the trace. Refusal 2 where no second was received.
#[tactic(auto, unfolding(crate::specs::Prompt::ended, crate::specs::Prompt::judge_end))]
pub fn end(engine: Engine) -> Result<Given, Refusal>
    ensures { result ≡ answer_by (ended engine).judged (ended engine).given }
{
    let live = engine.live;
    refusal::check(0 < live.received, Refusal::Count)?;
    Ok(live::finish(engine.v, live))
}
