// The shift speeds of a vehicle (01, Shift speeds): the ends of e to the power -x, and the two sides that a speed is held against.
#![tactic(auto)]

ghost use Rattle.std.specs.Prelude.{◌≡◌};
ghost use Rattle.shift.specs.Exponential.{next_term, with_term, exponential_of, Exponent};
ghost use Rattle.shift.specs.Fitting.{TermFits, SideFits};
ghost use Rattle.shift.specs.Speeds.{side_of, shift_of, side_at};
ghost use Rattle.shift.specs.Accepted.{Worked};
ghost use Rattle.arith.specs.Fitting.{SumFits, DifferenceFits};

use arith::Ends;
use vehicle::Vehicle;

// The k-th term from the one before it.
#[tactic(auto, unfolding(crate::specs::Exponential::next_term))]
fn next_term(over: u32, under: u32, t: Ends, k: u32) -> Ends
    requires { TermFits over under t k }
    ensures { result ≡ next_term over under t k }
{
    let times = arith::scaled(i64::from(over), t);
    arith::divided(times, i64::from(under) * i64::from(k))
}

// The sum with the k-th term.
#[tactic(auto, unfolding(crate::specs::Exponential::with_term))]
fn with_term(sum: Ends, t: Ends, k: u32) -> Ends
    requires { (SumFits sum t) × (DifferenceFits sum t) }
    ensures { result ≡ with_term sum t k }
{
    if k % 2 == 0 {
        return arith::sum(sum, t);
    }
    arith::difference(sum, t)
}

#[tactic(auto, unfolding(crate::specs::Exponential::exponential_of, crate::specs::Exponential::sum_to, crate::specs::Exponential::term_of))]
fn exponential(over: u32, under: u32) -> Ends
    requires { Exponent over under }
    ensures { result ≡ exponential_of over under }
{
    let mut term = arith::exactly(4294967296);
    let mut sum = term;
    for k in 1..24 {
        term = next_term(over, under, term, k);
        sum = with_term(sum, term, k);
    }
    let last = next_term(over, under, term, 24);
    let longer = with_term(sum, last, 24);
    Ends {
        lower: sum.lower,
        upper: longer.upper,
    }
}

// 10,000 x 2^32 times the engine speed at which gears are shifted.
#[tactic(auto, unfolding(crate::specs::Speeds::side_of))]
fn side(part: Ends, span: u32, idle: u32) -> Ends
    requires { SideFits part span idle }
    ensures { result ≡ side_of part span idle }
{
    let rise = arith::scaled(i64::from(span), part);
    let foot = arith::exactly(42949672960000 * i64::from(idle));
    arith::sum(rise, foot)
}

// What a speed is held against: the side of the upshift 1 to 2, and that of all others; the lowest engine speed, in 0.001 per minute, for the downshift 2 to 1
// of rule set 2.
#[derive(Clone, Copy)]
pub struct Shift {
    pub first: Ends,
    pub higher: Ends,
    pub ndv: [u32; 8],
    pub gears: u32,
    pub lowest: u64,
    pub rules: u32,
}

// The same of an accepted sheet, with what that tells of them.
#[derive(Clone, Copy)]
pub struct VehicleShift {
    pub shift: Shift,
    ghost worked: { Worked shift },
}

#[tactic(auto, unfolding(crate::specs::Speeds::first_side, crate::specs::Speeds::higher_side, crate::specs::Speeds::shift_of))]
fn of_sheet(v: Vehicle) -> Shift
    ensures { result ≡ shift_of v.sheet }
{
    let v = v.sheet;
    let e = exponential(19 * v.power, 100 * (v.mass + 75));
    let part = arith::scaled(5753, e);
    let less = arith::difference(part, arith::exactly(4294967296000));
    let span = v.rated - v.idle;
    let idle = v.idle;
    let ndv = v.ndv;
    Shift {
        first: side(less, span, idle),
        higher: side(part, span, idle),
        ndv,
        gears: v.gears,
        lowest: vehicle::lowest_engine_speed(v),
        rules: v.rules,
    }
}

pub fn shift_of(v: Vehicle) -> VehicleShift
    ensures { result.shift ≡ shift_of v.sheet }
{
    VehicleShift { shift: of_sheet(v) }
}

pub fn side_at(first: Ends, higher: Ends, i: usize) -> Ends
    ensures { result ≡ side_at first higher i }
{
    if i == 0 { first } else { higher }
}
