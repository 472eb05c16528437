// The vehicle sheet (01, Shift speeds; 02, M-101), judged: refusals 5, 6 and 7; and the lowest engine speed that drives.
#![tactic(auto)]

ghost use Rattle.std.specs.Prelude.{◌≡◌, ◌&&◌, ◌+◌, ◌-◌, ◌<◌, leb};
ghost use Rattle.refusal.specs.Ranges.{within};
ghost use Rattle.refusal.specs.Judging.{checked, judged_by};
ghost use Rattle.vehicle.specs.Engine.{ndv_of, lowest_engine_speed, below_lowest};
ghost use Rattle.vehicle.specs.Sheet.{engine_checks, gear_good, gear_refusal, judge_gears, judge_vehicle, Reach};
ghost use Rattle.vehicle.specs.Accepted.{Accepted};

mod accepted;

pub use accepted::Vehicle;
use refusal::Refusal;

// Power in 0.1 kW, mass in kg, rated and idle speed per minute, of each gear ndv in 0.01 per minute per km/h, and the rule set: 1 for global technical
// regulation No. 2, 2 for chapter 2W-II of document 004. Only the first `gears` of ndv are read. It crosses the C boundary as it is.
#[repr(C)]
#[derive(Clone, Copy)]
pub struct VehicleSheet {
    pub power: u32,
    pub mass: u32,
    pub rated: u32,
    pub idle: u32,
    pub gears: u32,
    pub ndv: [u32; 8],
    pub rules: u32,
}

fn ranged(field: u32, least: u32, most: u32, n: u32) -> Result<(), Refusal>
    ensures { result ≡ checked (within least most n) (Refusal.Vehicle field) (Ok tt) }
{
    refusal::check((least <= n) & (n <= most), Refusal::Vehicle { field })
}

// The idle's own range, and 500 below the rated speed.
fn idle_ranged(idle: u32, rated: u32) -> Result<(), Refusal>
    ensures { result ≡ checked (within 300 3000 idle && leb (idle + 500) rated) (Refusal.Vehicle 4) (Ok tt) }
{
    let low = idle as u64;
    let high = rated as u64;
    refusal::check(
        (300 <= idle) & (idle <= 3000) & (low + 500 <= high),
        Refusal::Vehicle { field: 4 },
    )
}

// Refusal 5, places 1 to 5.
fn judge_engine(v: VehicleSheet) -> Result<(), Refusal>
    ensures { result ≡ judged_by (engine_checks v) }
{
    ranged(1, 1, 3000, v.power)?;
    ranged(2, 30, 1000, v.mass)?;
    ranged(3, 1000, 20000, v.rated)?;
    idle_ranged(v.idle, v.rated)?;
    ranged(5, 3, 8, v.gears)
}

// Gear i in its range, or above the next one. Which is asked by a flag and not by a closure: the first wrong gear of either kind is one definition over it (`judge_gears`).
fn gear_good(falling: bool, ndv: [u32; 8], i: usize) -> bool
    requires { Reach falling (i + 1) }
    ensures { result ≡ gear_good falling ndv i }
{
    if falling {
        return ndv[i + 1] < ndv[i];
    }
    (1000 <= ndv[i]) & (ndv[i] <= 100000)
}

fn gear_refusal(falling: bool, i: usize) -> Refusal
    requires { i < 8 }
    ensures { result ≡ gear_refusal falling i }
{
    let field = (i + 6) as u32;
    let gear = (i + 2) as u32;
    if falling {
        return Refusal::Ratio { gear };
    }
    Refusal::Vehicle { field }
}

// Refusal 5, the places of the gears, and refusal 6: the first wrong one of n.
fn judge_gears(falling: bool, ndv: [u32; 8], n: usize) -> Result<(), Refusal>
    requires { Reach falling n }
    ensures { result ≡ judge_gears falling ndv 0 n }
{
    for i in 0..n {
        if !gear_good(falling, ndv, i) {
            return Err(gear_refusal(falling, i));
        }
    }
    Ok(())
}

// Refusals 5, 6 and 7.
#[tactic(auto, unfolding(crate::specs::Sheet::judge_vehicle))]
fn judge(v: VehicleSheet) -> Result<(), Refusal>
    ensures { result ≡ judge_vehicle v }
{
    judge_engine(v)?;
    let ndv = v.ndv;
    let gears = v.gears as usize;
    judge_gears(false, ndv, gears)?;
    ranged(14, 1, 2, v.rules)?;
    judge_gears(true, ndv, gears - 1)?;
    let power = v.power as u64;
    let mass = v.mass as u64;
    refusal::check(19 * power <= 150 * (mass + 75), Refusal::PowerToMass)
}

// Refusals 5 to 7, or the vehicle.
pub fn read(v: VehicleSheet) -> Result<Vehicle, Refusal>
    ensures { Accepted v (judge_vehicle v) result }
{
    judge(v)?;
    Ok(Vehicle { sheet: v })
}

// The ndv of a gear as a row names it; 0 for neutral, and for what is no gear.
fn ndv_of(ndv: [u32; 8], gear: u8) -> u32
    ensures { result ≡ ndv_of ndv gear }
{
    let i = gear as usize;
    if (1 <= i) & (i <= 8) {
        return ndv[i - 1];
    }
    0
}

// n + 0.03 (s - n), in 0.001 per minute (001, 6.5.5.2.1.3). Of a sheet that has s and n the other way round, s - n is 0.
pub fn lowest_engine_speed(v: VehicleSheet) -> u64
    ensures { result ≡ lowest_engine_speed v }
{
    let idle = v.idle as u64;
    let over = v.rated.saturating_sub(v.idle) as u64;
    1000 * idle + 30 * over
}

// A speed in 0.1 km/h turns the engine slower than that in this gear.
#[tactic(auto, unfolding(crate::specs::Engine::below_lowest))]
pub fn below_lowest(v: VehicleSheet, gear: u8, speed: u32) -> bool
    ensures { result ≡ below_lowest v gear speed }
{
    let ndv = v.ndv;
    let ratio = ndv_of(ndv, gear) as u64;
    (speed as u64) * ratio < lowest_engine_speed(v)
}
