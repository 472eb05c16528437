// What the programs print with and look for bytes with. No contract can say what is written; what can be said of a number's size and of a place is.
#![tactic(auto)]

ghost use Rattle.std.specs.Prelude.{◌≡◌, ◌≤◌, nat_abs, length};

use arith::Ends;
use std::{fmt, io};

// A number of tenths, with its point.
#[derive(Clone, Copy)]
pub struct Tenths(pub u64);

impl fmt::Display for Tenths {
    fn fmt<W: fmt::Write>(&self, f: &mut fmt::Formatter<W>) -> fmt::Result {
        write!(f, "{}.{}", self.0 / 10, self.0 % 10)
    }
}

// The two ends of a number, and a space before each.
pub fn ends(rt: &impl Print, e: Ends) -> io::Result<()> {
    print!(rt; " {} {}", e.lower, e.upper)
}

// How far x lies from 0.
pub fn magnitude(x: i64) -> u64
    ensures { result ≡ nat_abs x }
{
    x.unsigned_abs()
}

// Where a byte first stands, from a place on: the length where it does not.
pub fn position(bytes: &[u8], from: usize, byte: u8) -> usize
    requires { from ≤ length bytes.now }
    ensures { (from ≤ result) × (result ≤ length bytes.now) }
{
    match bytes[from..].iter().position(|b| *b == byte) {
        Some(k) => from + k,
        None => bytes.len(),
    }
}
