// The own gears of a trace's seconds (01, Gear of each second), by the vehicle's shift speeds in whole tenths, and refusal 9.
#![tactic(auto)]

ghost use Rattle.std.specs.Prelude.{◌≡◌, ◌≤◌, length};
ghost use Rattle.house.specs.House.{Lasts};
ghost use Rattle.shift.specs.Speeds.{shift_of};
ghost use Rattle.own.specs.Own.{judge_own, judge_close, put_gears, gears_after, Ready};
ghost use Rattle.own.specs.ByTenths.{second_by_tenths, second_at, judge_marked};

use house::HouseFile;
use refusal::Refusal;
use tenths::Tenths;
use vehicle::Vehicle;

// The gear that a second's speed gives, which a stop second does not take. It is worked out there too: without a branch the compiler works on many seconds at once.
#[tactic(auto, unfolding(crate::specs::ByTenths::second_by_tenths))]
pub fn own_second(t: Tenths, flags: u8, speed: u16) -> u8
    ensures { result ≡ (second_by_tenths t flags speed).gear }
{
    let gear = tenths::own_gear(t, house::is_acceleration(flags), speed);
    if house::is_stop(flags) { 0 } else { gear }
}

// Whether it is too close to call.
#[tactic(auto, unfolding(crate::specs::ByTenths::second_by_tenths))]
pub fn is_close(t: Tenths, flags: u8, speed: u16) -> bool
    ensures { result ≡ (second_by_tenths t flags speed).close }
{
    if house::is_stop(flags) {
        return false;
    }
    tenths::is_close(t, house::is_acceleration(flags), speed)
}

// Refusal 9.
fn judge_own(t: Tenths, trace: HouseFile) -> Result<(), Refusal>
    requires { trace.seconds ≤ 2000 }
    ensures { result ≡ judge_own (second_at t trace.entry.bytes.now) 0 trace.entry.seconds }
{
    for k in 0..trace.seconds {
        let speed = trace.speed(k) as u16;
        if is_close(t, trace.flags(k), speed) {
            let place = (k + 1) as u32;
            return Err(Refusal::TooClose { second: place });
        }
    }
    Ok(())
}

// It is sought only where a tenth is marked.
#[tactic(auto, unfolding(crate::specs::ByTenths::judge_marked))]
pub fn judge_marked(t: Tenths, trace: HouseFile) -> Result<(), Refusal>
    requires { trace.seconds ≤ 2000 }
    ensures { result ≡ judge_marked t trace.entry.bytes.now trace.entry.seconds }
{
    if tenths::is_marked(t) {
        return judge_own(t, trace);
    }
    Ok(())
}

// The gears, with no exit from the loop.
fn put_gears(t: Tenths, trace: HouseFile, own: &mut [u8])
    requires { (trace.seconds ≤ 2000) × (trace.seconds ≤ length own.old) }
    ensures { own.new ≡ put_gears (second_at t trace.entry.bytes.now) own.old trace.entry.seconds }
{
    for k in 0..trace.seconds {
        let speed = trace.speed(k) as u16;
        own[k] = own_second(t, trace.flags(k), speed);
    }
}

// Refusal 9, and the list as it was; or the own gears of all seconds in it.
pub fn own_gears(v: Vehicle, trace: HouseFile, own: &mut [u8]) -> Result<(), Refusal>
    requires { (Ready (shift_of v.sheet) trace.bytes.now trace.seconds) × (trace.seconds ≤ length own.old) }
    ensures { (result ≡ judge_close (shift_of v.sheet) trace.entry.bytes.now 0 trace.entry.seconds)
        × (own.new ≡ gears_after (shift_of v.sheet) trace.entry.bytes.now own.old trace.entry.seconds) }
{
    let t = tenths::of_vehicle(v);
    judge_marked(t, trace)?;
    put_gears(t, trace, own);
    Ok(())
}
