// Tables A13-2 and A13-3 of 001, and Ap8-3 and Ap8-4 of 004. Of each figure both ends are printed, rounded outward before the last rounding: where they agree it is that of the exact one.
use super::output;
use super::sheet::vehicle_in;
use arith::Ends;
use cases::Numbers;
use print::{Tenths, magnitude};
use shift::Shift;
use std::io;

// n is 10,000 times the engine speed in the gear of `ndv`: the road speed in 0.1 km/h. A number of halves is taken to the nearest whole one, halves up.
fn road_speed(n: u64, ndv: u32) -> u64 {
    if ndv == 0 {
        return 0;
    }
    (n / (5 * u64::from(ndv))).div_ceil(2)
}

fn engine_speed(n: u64) -> u64 {
    (n / 5000).div_ceil(2)
}

// The same in another gear at the same road speed.
fn changed(n: u64, from: u32, to: u32) -> u64 {
    n.checked_mul(u64::from(to))
        .and_then(|times| times.checked_div(u64::from(from)))
        .unwrap_or(0)
}

// How far an engine speed lies from idle to rated, in 0.1 per cent.
fn normalised(n: u64, idle: u32, rated: u32) -> u64 {
    let least = 10000 * u64::from(idle);
    if idle < rated && least <= n {
        ((n - least) / (5 * u64::from(rated - idle))).div_ceil(2)
    } else {
        0
    }
}

// Places 21 and 22 say where the ndv of the gear stands in which the engine has these speeds, and that of the gear that is left.
fn speeds(rt: &impl Print, n: &Numbers, lower: u64, upper: u64) -> io::Result<()> {
    let met = n.word_at(0, n.word_at(0, 21));
    let left = n.word_at(0, n.word_at(0, 22));
    let rated = n.word_at(0, 3);
    let idle = n.word_at(0, 4);
    let first = changed(lower, met, left);
    let second = changed(upper, met, left);
    let slow = Tenths(road_speed(lower, met));
    let fast = Tenths(road_speed(upper, met));
    print!(rt;
        " {slow} {fast} km/h at {} {},",
        engine_speed(first),
        engine_speed(second)
    )?;
    let low = Tenths(normalised(first, idle, rated));
    let high = Tenths(normalised(second, idle, rated));
    println!(rt; " {low} {high} per cent")
}

// 01: the downshift speed is that of the upshift two gears below. Gear 1, whose ndv is at place 6, has a side of its own.
fn side_of(s: Shift, place: u32) -> Ends {
    if place == 6 { s.first } else { s.higher }
}

pub fn shift_speed(rt: &impl Print, n: &Numbers) -> io::Result<()> {
    match vehicle::read(vehicle_in(n)) {
        Ok(v) => {
            let side = side_of(shift::shift_of(v).shift, n.word_at(0, 21));
            let e = arith::divided(side, 4294967296);
            speeds(rt, n, magnitude(e.lower), magnitude(e.upper))
        }
        Err(refusal) => output::outcome(rt, Err(refusal)),
    }
}

// 001, table A13-3, and 004, table Ap8-4, "2 to cl": where the clutch goes out, and by equation 2.7 of 004 the downshift 2 to 1.
pub fn clutch_speed(rt: &impl Print, n: &Numbers) -> io::Result<()> {
    match vehicle::read(vehicle_in(n)) {
        Ok(v) => {
            let e = 10 * vehicle::lowest_engine_speed(v.sheet);
            speeds(rt, n, e, e)
        }
        Err(refusal) => output::outcome(rt, Err(refusal)),
    }
}
