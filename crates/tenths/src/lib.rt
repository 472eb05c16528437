// The shift speeds of a vehicle in whole tenths of a km/h, the unit of a second's speed, and the gear of a speed by them (02, M-106).
#![tactic(auto)]

ghost use Rattle.std.specs.Prelude.{◌≡◌, ◌≤◌, ◌<◌, pos, ◌≤ℤ◌};
ghost use Rattle.arith.specs.Fitting.{Sized};
ghost use Rattle.shift.specs.Speeds.{shift_of};
ghost use Rattle.shift.specs.Accepted.{largest_side};
ghost use Rattle.tenths.specs.Least.{tenth, from_zero, least_of, least_at, not_below, first_of, tenths_of};
ghost use Rattle.tenths.specs.Choice.{reached, held, own_by_tenths, marked};

use arith::Ends;
use shift::VehicleShift;
use vehicle::Vehicle;

// Of one shift speed: the least tenth above it, and the least that is not below it.
#[repr(C)]
#[derive(Clone, Copy)]
pub struct LeastTenths {
    pub above: u16,
    pub not_below: u16,
}

// Of each upshift, from the first gear up; out of reach past the last. `last` is the last of them once more, which is no downshift: read here, and not at a place that
// the compiler does not know. `first` is the least tenth at or above the downshift 2 to 1, 0 under rule set 1.
#[repr(C)]
#[derive(Clone, Copy)]
pub struct Tenths {
    pub above: [u16; 7],
    pub not_below: [u16; 7],
    pub last: LeastTenths,
    pub gears: u32,
    pub first: u16,
}

// What one tenth is on the left side of the comparison.
fn tenth(ndv: u32) -> i64
    requires { ndv ≤ 100000 }
    ensures { result ≡ tenth ndv }
{
    42949672960 * i64::from(ndv)
}

fn from_zero(n: i64) -> u16
    requires { n ≤ℤ pos 65535 }
    ensures { result ≡ from_zero n }
{
    if n < 0 { 0 } else { n as u16 }
}

#[tactic(auto, unfolding(crate::specs::Least::least_of))]
fn least(side: Ends, ndv: u32) -> LeastTenths
    requires { (Sized largest_side side) × (1000 ≤ ndv) × (ndv ≤ 100000) }
    ensures { result ≡ least_of side ndv }
{
    let unit = tenth(ndv);
    let under = arith::div_down(side.upper, unit);
    let upon = arith::div_up(side.lower, unit);
    LeastTenths {
        above: from_zero(under + 1),
        not_below: from_zero(upon),
    }
}

// Of the upshift from gear i; past the last what no speed reaches.
#[tactic(auto, unfolding(crate::specs::Least::least_at))]
fn least_at(v: VehicleShift, i: usize) -> LeastTenths
    requires { i < 7 }
    ensures { result ≡ least_at v.shift i }
{
    let s = v.shift;
    let ndv = s.ndv;
    if i + 1 < s.gears as usize {
        return least(shift::side_at(s.first, s.higher, i), ndv[i]);
    }
    LeastTenths {
        above: 65535,
        not_below: 65535,
    }
}

// The least tenth at which the engine turns no slower than at the lowest engine speed.
pub fn not_below(lowest: u64, ndv: u32) -> u16
    requires { (lowest ≤ 3600000) × (1000 ≤ ndv) }
    ensures { result ≡ not_below lowest ndv }
{
    from_zero(arith::div_up(lowest as i64, i64::from(ndv)))
}

#[tactic(auto, unfolding(crate::specs::Least::first_of))]
fn first(v: VehicleShift) -> u16
    ensures { result ≡ first_of v.shift }
{
    let s = v.shift;
    let ndv = s.ndv;
    if s.rules == 2 {
        return not_below(s.lowest, ndv[1]);
    }
    0
}

#[tactic(auto, unfolding(crate::specs::Least::tenths_of))]
fn tenths_of(v: VehicleShift) -> Tenths
    ensures { result ≡ tenths_of v.shift }
{
    let mut above = [0; 7];
    let mut not_below = [0; 7];
    for i in 0..7 {
        let one = least_at(v, i);
        // a field of a struct is stored from a local, the form that the prover covers
        let over = one.above;
        let from = one.not_below;
        above[i] = over;
        not_below[i] = from;
    }
    Tenths {
        above,
        not_below,
        last: least_at(v, v.shift.gears as usize - 2),
        gears: v.shift.gears,
        first: first(v),
    }
}

pub fn of_vehicle(v: Vehicle) -> Tenths
    ensures { result ≡ tenths_of (shift_of v.sheet) }
{
    tenths_of(shift::shift_of(v))
}

// How many of the seven a speed has reached. Always seven, and no exit: so the compiler works on many seconds at once.
#[tactic(auto, unfolding(crate::specs::Choice::reached))]
fn reached(least: [u16; 7], speed: u16) -> u8
    ensures { (result ≡ reached least speed 7) × (result ≤ 7) }
{
    let mut count = 0;
    for i in 0..7 {
        count += u8::from(least[i] <= speed);
    }
    count
}

// Those of them that count in the phase: the last upshift is no downshift.
#[tactic(auto, unfolding(crate::specs::Choice::held))]
fn held(least: [u16; 7], last: u16, accelerating: bool, speed: u16) -> u8
    ensures { (result ≡ held least last accelerating speed) × (result ≤ 7) }
{
    let all = reached(least, speed);
    let top = u8::from(last <= speed);
    if accelerating {
        return all;
    }
    all.saturating_sub(top)
}

// The gear of a second outside stop by the sheet's rule set, before corrections.
#[tactic(auto, unfolding(crate::specs::Choice::own_by_tenths))]
pub fn own_gear(t: Tenths, accelerating: bool, speed: u16) -> u8
    ensures { result ≡ (own_by_tenths t accelerating speed).gear }
{
    let least = t.above;
    let above = held(least, t.last.above, accelerating, speed);
    if accelerating {
        return above + 1;
    }
    if speed < t.first { 1 } else { above + 2 }
}

// Whether any of its comparisons is too close to call. Apart from the gear, which is wanted of every second and this of hardly any.
#[tactic(auto, unfolding(crate::specs::Choice::own_by_tenths))]
pub fn is_close(t: Tenths, accelerating: bool, speed: u16) -> bool
    ensures { result ≡ (own_by_tenths t accelerating speed).close }
{
    let least = t.above;
    let from = t.not_below;
    let above = held(least, t.last.above, accelerating, speed);
    let not_below = held(from, t.last.not_below, accelerating, speed);
    above != not_below
}

// Whether any speed is too close to a shift speed.
#[tactic(auto, unfolding(crate::specs::Choice::marked))]
pub fn is_marked(t: Tenths) -> bool
    ensures { result ≡ marked t }
{
    let above = t.above;
    let not_below = t.not_below;
    let mut marks = 0;
    for i in 0..7 {
        marks += u8::from(not_below[i] < above[i]);
    }
    0 < marks
}
