// The trace of version 2 that is written from a few seconds, at most ten, into bytes that were 165 at first: block 1 has the seconds, place 21 how many numbers of
// them are lent, place 22 how many bytes.
ghost use Rattle.std.specs.Prelude.{◌≤◌};

use super::output;
use super::seconds::flags_of;
use cases::Numbers;
use std::io;

fn pair_at(n: &Numbers, k: u32) -> u16 {
    let second = 2 + k / 2;
    let number = if k % 2 == 0 {
        n.digits_at(1, second)
    } else {
        flags_of(n, 1, second)
    };
    (number % 65536) as u16
}

fn numbers_in(n: &Numbers) -> [u16; 20] {
    let mut numbers = [0; 20];
    for (k, number) in numbers.iter_mut().enumerate() {
        *number = pair_at(n, k as u32);
    }
    numbers
}

fn lent(n: &Numbers) -> usize
    ensures { result ≤ 20 }
{
    (n.digits_at(0, 21) % 21) as usize
}

fn room(n: &Numbers) -> usize
    ensures { result ≤ 48 }
{
    (n.digits_at(0, 22) % 49) as usize
}

pub fn trace(rt: &impl Print, n: &Numbers) -> io::Result<()> {
    let numbers = numbers_in(n);
    let mut bytes = [165; 48];
    let buffer = &mut bytes[..room(n)];
    output::outcome(rt, writer::write_trace(&numbers[..lent(n)], buffer))?;
    output::bytes(rt, buffer)
}
