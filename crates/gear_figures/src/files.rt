// The rows of the cycle's parts, from files.
ghost use Rattle.std.specs.Prelude.{◌<◌, ◌≤◌, length, IfOk};

use super::sheet::vehicle_in;
use super::{output, prompting};
use cases::Numbers;
use std::io::Read;
use std::rt::Files;
use std::{fs, io, str};

fn size_at(n: &Numbers, place: u32) -> usize
    ensures { result ≤ 3610 }
{
    (n.digits_at(0, place) % 3611) as usize
}

fn put(rt: &impl Print, trace: &[u8], n: &Numbers, rows: &mut [u8; 3610]) -> io::Result<()> {
    let judged = gear::write_gears(trace, vehicle_in(n), rows, size_at(n, 21));
    output::outcome(rt, judged)?;
    println!(rt)
}

// Reads until the bytes are full or the input ends, and says how many were read.
fn read_full(from: &mut impl Read, bytes: &mut [u8]) -> io::Result<usize>
    ensures { IfOk result (λ n. n ≤ length bytes.new) }
{
    let mut done = 0;
    for _ in 0..u64::MAX {
        let n = from.read(&mut bytes[done..])?;
        if n == 0 {
            break;
        }
        done += n;
    }
    Ok(done)
}

// The first bytes of a file, and how many there are. What cannot be opened has none.
fn read_trace(rt: &impl Files, path: &[u8], trace: &mut [u8; 4096]) -> io::Result<usize>
    ensures { IfOk result (λ n. n ≤ 4096) }
{
    let Ok(name) = str::from_utf8(path) else {
        return Ok(0);
    };
    let Ok(mut file) = fs::open(rt, name) else {
        return Ok(0);
    };
    read_full(&mut file, trace)
}

// The row of a file of the folder data, from place 21 on; where it is asked for live, second by second.
pub fn put_row(
    rt: &(impl Files + Print),
    n: &Numbers,
    path: &[u8],
    rows: &mut [u8; 3610],
    live: bool,
) -> io::Result<()> {
    let mut trace = [0; 4096];
    let got = read_trace(rt, path, &mut trace)?;
    if live {
        prompting::row(rt, &trace, got / 4, n, rows, size_at(n, 21))
    } else {
        put(rt, &trace[..got], n, rows)
    }
}

// How many seconds from byte 4 to the end have the value, as their gear (byte 0) or as their clutch (byte 1).
fn count(rows: &[u8; 3610], end: usize, byte: usize, value: u8) -> usize
    requires { (end ≤ 3610) × (byte < 2) }
{
    (2..end / 2)
        .filter(|k| rows[2 * *k + byte] == value)
        .count()
}

// The seconds of each gear up to 6, those with the clutch out, and the checksum.
pub fn tally(rt: &impl Print, n: &Numbers, rows: &[u8; 3610]) -> io::Result<()> {
    let end = size_at(n, 21).max(4);
    for gear in 0..7 {
        print!(rt; " {}", count(rows, end, 0, gear))?;
    }
    let out = count(rows, end, 1, 1);
    println!(rt;
        " clutch out {out} checksum {}",
        output::checksum(&rows[4..end])
    )
}

pub fn sum(rt: &impl Print, rows: &[u8; 3610]) -> io::Result<()> {
    println!(rt; " {}", output::checksum(rows))
}
