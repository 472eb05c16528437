// What crosses the boundary of a vehicle's shift speeds, in km/h and in whole tenths: numbers alone. Beside a refusal all of them are 0.
#![tactic(auto)]

ghost use Rattle.std.specs.Prelude.{◌≡◌};
ghost use Rattle.speeds_crossing.specs.Speeds.{no_speeds, speeds_out};
ghost use Rattle.speeds_crossing.specs.ShiftTenths.{no_tenths, seven_of, tenths_out};

use arith::Ends;
use outcome::Outcome;
use vehicle::VehicleSheet;

// `speeds::ShiftSpeeds` beside the outcome.
#[repr(C)]
#[derive(Clone, Copy)]
pub struct SpeedsOutcome {
    pub outcome: Outcome,
    pub count: u32,
    pub upshift: [Ends; 7],
    pub first: Ends,
}

#[tactic(auto, unfolding(crate::specs::Speeds::no_speeds))]
fn no_speeds(outcome: Outcome) -> SpeedsOutcome
    ensures { result ≡ no_speeds outcome }
{
    SpeedsOutcome {
        outcome,
        count: 0,
        upshift: [arith::exactly(0); 7],
        first: arith::exactly(0),
    }
}

#[tactic(auto, unfolding(crate::specs::Speeds::speeds_out))]
pub fn speeds_out(vehicle: VehicleSheet) -> SpeedsOutcome
    ensures { result ≡ speeds_out vehicle }
{
    let vehicle = match vehicle::read(vehicle) {
        Ok(vehicle) => vehicle,
        Err(refusal) => return no_speeds(Outcome::from(Err(refusal))),
    };
    let speeds = speeds::of_vehicle(vehicle);
    let upshift = speeds.upshift;
    let first = speeds.first;
    SpeedsOutcome {
        outcome: Outcome::from(Ok(())),
        count: speeds.count,
        upshift,
        first,
    }
}

// `tenths::Tenths` beside the outcome.
#[repr(C)]
#[derive(Clone, Copy)]
pub struct TenthsOutcome {
    pub outcome: Outcome,
    pub count: u32,
    pub above: [u32; 7],
    pub not_below: [u32; 7],
    pub first: u32,
}

#[tactic(auto, unfolding(crate::specs::ShiftTenths::no_tenths))]
fn no_tenths(outcome: Outcome) -> TenthsOutcome
    ensures { result ≡ no_tenths outcome }
{
    TenthsOutcome {
        outcome,
        count: 0,
        above: [0; 7],
        not_below: [0; 7],
        first: 0,
    }
}

// Seven tenths in the wider numbers that cross.
fn wide(least: [u16; 7]) -> [u32; 7]
    ensures { result ≡ seven_of least }
{
    let mut wide = [0; 7];
    for i in 0..7 {
        wide[i] = least[i] as u32;
    }
    wide
}

#[tactic(auto, unfolding(walk::specs::Walk::listed, tenths::specs::Least::tenths_of, crate::specs::ShiftTenths::tenths_out))]
pub fn tenths_out(vehicle: VehicleSheet) -> TenthsOutcome
    ensures { result ≡ tenths_out vehicle }
{
    let vehicle = match vehicle::read(vehicle) {
        Ok(vehicle) => vehicle,
        Err(refusal) => return no_tenths(Outcome::from(Err(refusal))),
    };
    let tenths = tenths::of_vehicle(vehicle);
    let above = tenths.above;
    let not_below = tenths.not_below;
    TenthsOutcome {
        outcome: Outcome::from(Ok(())),
        count: tenths.gears - 1,
        above: wide(above),
        not_below: wide(not_below),
        first: tenths.first as u32,
    }
}
