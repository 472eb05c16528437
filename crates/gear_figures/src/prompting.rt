// The seconds of a trace heard one after the other by the live engine, and what each call gives.
ghost use Rattle.std.specs.Prelude.{◌+◌, ◌*◌, ◌≤◌, length};

use super::output;
use super::seconds::{count_in, trace_in};
use super::sheet::vehicle_in;
use cases::Numbers;
use live::Given;
use prompt::Received;
use prompt_crossing::LiveState;
use std::io;

fn received(trace: &[u8], k: usize) -> Received
    requires { 4 * k + 12 ≤ length trace.now }
{
    let at = 4 * k + 8;
    Received {
        speed: u16::from_le_bytes([trace[at], trace[at + 1]]),
        flags: trace[at + 2],
        fourth: trace[at + 3],
    }
}

// How many seconds are given, at most five.
fn count_of(g: Given) -> usize
    ensures { result ≤ 5 }
{
    (g.count % 6) as usize
}

fn given(rt: &impl Print, g: Given) -> io::Result<()> {
    for k in 0..count_of(g) {
        output::second(rt, g.bytes[2 * k], g.bytes[2 * k + 1])?;
    }
    Ok(())
}

// A stroke behind each call of a second, then the outcome and what the end gives.
pub fn seconds(rt: &impl Print, n: &Numbers) -> io::Result<()> {
    let trace = trace_in(n, 1);
    let mut state = begin(n);
    for k in 0..count_in(n, 1) {
        let answer = prompt_crossing::second(state, received(&trace, k));
        given(rt, answer.given)?;
        print!(rt; ";")?;
        state = answer.state;
    }
    let last = prompt_crossing::end(state);
    output::told(rt, last.outcome)?;
    given(rt, last.given)?;
    println!(rt)
}

fn begin(n: &Numbers) -> LiveState {
    prompt_crossing::begin(n.word_at(1, 21), vehicle_in(n))
}

// The bytes that are given, into the rows from a place on as far as there is room, and the place behind them.
fn put(g: Given, rows: &mut [u8; 3610], from: usize) -> usize
    requires { from ≤ 3610 }
    ensures { result ≤ 3610 }
{
    let end = (from + 2 * count_of(g)).min(3610);
    rows[from..end].copy_from_slice(&g.bytes[..end - from]);
    end
}

// A house file of so many times four bytes, into the rows from a place on.
pub fn row(
    rt: &impl Print,
    trace: &[u8; 4096],
    fours: usize,
    n: &Numbers,
    rows: &mut [u8; 3610],
    from: usize,
) -> io::Result<()>
    requires { (fours ≤ 1024) × (from ≤ 3610) }
{
    let mut state = begin(n);
    let mut at = from;
    for k in 2..fours {
        let answer = prompt_crossing::second(state, received(trace, k - 2));
        at = put(answer.given, rows, at);
        state = answer.state;
    }
    let last = prompt_crossing::end(state);
    put(last.given, rows, at);
    output::told(rt, last.outcome)?;
    println!(rt)
}
