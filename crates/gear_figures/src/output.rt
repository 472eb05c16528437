// What is printed of an outcome and of a row.
ghost use Rattle.std.specs.Prelude.{◌≤◌};

use outcome::Outcome;
use refusal::Refusal;
use std::io;

pub fn told(rt: &impl Print, o: Outcome) -> io::Result<()> {
    if o.number == 0 {
        print!(rt; " accepted")
    } else {
        print!(rt; " refused {} at {}", o.number, o.at)
    }
}

pub fn outcome(rt: &impl Print, judged: Result<(), Refusal>) -> io::Result<()> {
    told(rt, Outcome::from(judged))
}

fn with_byte(sum: u64, byte: u8) -> u64 {
    (257 * (sum % 4294967291) + u64::from(byte) + 1) % 4294967291
}

// The bytes as digits to the base 257, modulo a prime: one changed byte changes it, and so do two that change places.
pub fn checksum(bytes: &[u8]) -> u64 {
    bytes.iter().fold(0, |sum, byte| with_byte(sum, *byte))
}

pub fn second(rt: &impl Print, gear: u8, clutch: u8) -> io::Result<()> {
    print!(rt; " {gear}")?;
    if clutch == 1 {
        print!(rt; " out")?;
    }
    Ok(())
}

// The gear of each second, and whether its clutch is out.
fn gears(rt: &impl Print, row: &[u8; 24], count: usize) -> io::Result<()>
    requires { count ≤ 10 }
{
    print!(rt; ", gears")?;
    for k in 0..count {
        second(rt, row[2 * k], row[2 * k + 1])?;
    }
    Ok(())
}

// What a refused row holds is what it was lent with.
fn buffer(rt: &impl Print, row: &[u8; 24]) -> io::Result<()> {
    print!(rt; ", buffer {} {}", checksum(&[165; 24]), checksum(row))
}

pub fn bytes(rt: &impl Print, buffer: &[u8]) -> io::Result<()> {
    print!(rt; ", bytes")?;
    for byte in buffer {
        print!(rt; " {byte}")?;
    }
    println!(rt)
}

// The outcome, and then the gears of a few seconds, or the buffer's checksum before and after.
pub fn row(
    rt: &impl Print,
    judged: Result<(), Refusal>,
    row: &[u8; 24],
    count: usize,
) -> io::Result<()>
    requires { count ≤ 10 }
{
    outcome(rt, judged)?;
    match judged {
        Ok(()) => gears(rt, row, count)?,
        Err(_) => buffer(rt, row)?,
    }
    println!(rt)
}
