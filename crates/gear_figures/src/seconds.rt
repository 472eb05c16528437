// The gears of a few seconds, at most ten. Block 1 has them, or a pair's normal trace, and block 2 its reduced one: their count, then the speed of each, in tenths, whose
// unit is the first letter of the phase. From place 21 on it has the trace's version, then what its marks add to the flags of each second.
ghost use Rattle.std.specs.Prelude.{◌≤◌};

use super::output;
use super::sheet::vehicle_in;
use cases::Numbers;
use print::Tenths;
use std::io;

pub fn count_in(n: &Numbers, block: u32) -> usize
    ensures { result ≤ 10 }
{
    (n.digits_at(block, 1) % 11) as usize
}

fn low(n: u64) -> u8 {
    (n % 256) as u8
}

fn phase_of(unit: Option<u8>) -> u64
    ensures { result ≤ 3 }
{
    match unit {
        Some(b'a') => 1,
        Some(b'c') => 2,
        Some(b'd') => 3,
        _ => 0,
    }
}

pub fn flags_of(n: &Numbers, block: u32, second: u32) -> u64
    ensures { result ≤ 65538 }
{
    let phase = phase_of(n.at(block, second).unit);
    phase + n.digits_at(block, 20 + second % 20) % 65536
}

fn second_byte(n: &Numbers, block: u32, second: u32, i: u32) -> u8 {
    let speed = n.digits_at(block, second);
    match i {
        0 => low(speed),
        1 => low(speed / 256),
        2 => low(flags_of(n, block, second)),
        _ => 0,
    }
}

// Byte i of the house file.
fn byte_at(n: &Numbers, block: u32, i: u32) -> u8 {
    match i {
        0 => b'W',
        1 => b'T',
        2 => b'R',
        4 => low(n.digits_at(block, 21)),
        6 => low(n.digits_at(block, 1)),
        3 | 5 | 7 => 0,
        _ => second_byte(n, block, i / 4, i % 4),
    }
}

pub fn trace_in(n: &Numbers, block: u32) -> [u8; 48] {
    let mut trace = [0; 48];
    for (i, byte) in trace.iter_mut().enumerate() {
        *byte = byte_at(n, block, i as u32);
    }
    trace
}

fn speeds(rt: &impl Print, n: &Numbers, count: usize) -> io::Result<()>
    requires { count ≤ 10 }
{
    for k in 0..count {
        print!(rt; " {}", Tenths(n.digits_at(1, k as u32 + 2)))?;
    }
    print!(rt; ":")
}

// The outcome and the gears of a trace.
fn gears_of(rt: &impl Print, trace: &[u8], n: &Numbers) -> io::Result<()> {
    let mut row = [165; 24];
    let judged = gear::write_gears(trace, vehicle_in(n), &mut row, 0);
    output::row(rt, judged, &row, count_in(n, 1))
}

fn size_of(n: &Numbers, block: u32) -> usize
    ensures { result ≤ 48 }
{
    8 + 4 * count_in(n, block)
}

pub fn seconds(rt: &impl Print, n: &Numbers) -> io::Result<()> {
    speeds(rt, n, count_in(n, 1))?;
    let trace = trace_in(n, 1);
    gears_of(rt, &trace[..size_of(n, 1)], n)
}

// The trace of a pair that the switch at place 21 names, and the gears of what is handed back.
pub fn pair(rt: &impl Print, n: &Numbers) -> io::Result<()> {
    let normal = trace_in(n, 1);
    let reduced = trace_in(n, 2);
    let switch = n.digits_at(0, 21) == 1;
    let chosen = trace::choose(&normal[..size_of(n, 1)], &reduced[..size_of(n, 2)], switch);
    print!(rt; " {}", chosen.len())?;
    gears_of(rt, chosen, n)
}
