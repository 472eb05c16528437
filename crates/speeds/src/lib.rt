// The shift speeds of a vehicle in km/h (01, Shift speeds; 02, M-101), as a planner reads them: ends in 0.001 km/h.
#![tactic(auto)]

ghost use Rattle.std.specs.Prelude.{◌≡◌, ◌≤◌, ◌<◌};
ghost use Rattle.arith.specs.Fitting.{Sized};
ghost use Rattle.shift.specs.Speeds.{shift_of};
ghost use Rattle.shift.specs.Accepted.{largest_side};
ghost use Rattle.speeds.specs.Upshifts.{speed_of, upshift_at, to_first, shift_speeds_of};

use arith::Ends;
use shift::VehicleShift;
use vehicle::Vehicle;

// The first `count` of `upshift`, from the first gear up; the others are 0. `first` is the downshift 2 to 1, 0 under rule set 1.
#[derive(Clone, Copy)]
pub struct ShiftSpeeds {
    pub count: u32,
    pub upshift: [Ends; 7],
    pub first: Ends,
}

// The engine speed in 1/10,000 per minute, and ten times that over ndv.
#[tactic(auto, unfolding(crate::specs::Upshifts::speed_of))]
fn speed(side: Ends, ndv: u32) -> Ends
    requires { (Sized largest_side side) × (1 ≤ ndv) }
    ensures { result ≡ speed_of side ndv }
{
    let engine = arith::divided(side, 4294967296);
    arith::divided(arith::scaled(10, engine), i64::from(ndv))
}

#[tactic(auto, unfolding(crate::specs::Upshifts::upshift_at))]
fn upshift(v: VehicleShift, i: usize) -> Ends
    requires { i < 7 }
    ensures { result ≡ upshift_at v.shift i }
{
    let s = v.shift;
    let ndv = s.ndv;
    if i + 1 < s.gears as usize {
        return speed(shift::side_at(s.first, s.higher, i), ndv[i]);
    }
    arith::exactly(0)
}

#[tactic(auto, unfolding(crate::specs::Upshifts::to_first))]
fn to_first(v: VehicleShift) -> Ends
    ensures { result ≡ to_first v.shift }
{
    let s = v.shift;
    let ndv = s.ndv;
    if s.rules == 2 {
        return arith::divided(arith::exactly((100 * s.lowest) as i64), i64::from(ndv[1]));
    }
    arith::exactly(0)
}

#[tactic(auto, unfolding(crate::specs::Upshifts::shift_speeds_of))]
fn shift_speeds(v: VehicleShift) -> ShiftSpeeds
    ensures { result ≡ shift_speeds_of v.shift }
{
    ShiftSpeeds {
        count: v.shift.gears - 1,
        upshift: [
            upshift(v, 0),
            upshift(v, 1),
            upshift(v, 2),
            upshift(v, 3),
            upshift(v, 4),
            upshift(v, 5),
            upshift(v, 6),
        ],
        first: to_first(v),
    }
}

pub fn of_vehicle(v: Vehicle) -> ShiftSpeeds
    ensures { result ≡ shift_speeds_of (shift_of v.sheet) }
{
    shift_speeds(shift::shift_of(v))
}
