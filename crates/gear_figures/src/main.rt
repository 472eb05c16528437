// The gear sheet as the compiled code gives it, for the cases of the file `stdin`: the examples of Annex 13 and of 004's Appendix 8, the rows of the cycle's parts, traces too close
// to call, pairs of traces, the rows of the corrections, the versions of a trace, what is written, and what is given live.
#![tactic(auto)]

mod files;
mod output;
mod prompting;
mod seconds;
mod sheet;
mod shifts;
mod writing;

use cases::Numbers;
use std::io;
use std::io::Read;
use std::rt::Files;

// Place 20 says what is asked.
fn show(
    rt: &(impl Files + Print),
    n: &Numbers,
    said: &[u8],
    rows: &mut [u8; 3610],
) -> io::Result<()> {
    match n.digits_at(0, 20) {
        0 => seconds::seconds(rt, n),
        1 => shifts::shift_speed(rt, n),
        2 => shifts::clutch_speed(rt, n),
        3 => seconds::pair(rt, n),
        4 => files::put_row(rt, n, said, rows, false),
        5 => files::tally(rt, n, rows),
        7 => writing::trace(rt, n),
        8 => prompting::seconds(rt, n),
        9 => files::put_row(rt, n, said, rows, true),
        _ => files::sum(rt, rows),
    }
}

fn lines(rt: &(impl Files + Print), text: &[u8]) -> io::Result<()> {
    let mut lasting = Numbers::new();
    let mut own = Numbers::new();
    let mut rows = [165; 3610];
    let mut at = 0;
    while at < text.len() {
        let line = cases::read_line(rt, text, at, &mut lasting, &mut own)?;
        if let Some(said) = line.said {
            show(rt, &own, &text[at..said], &mut rows)?;
        }
        at = line.end;
    }
    Ok(())
}

fn main(rt: HostRuntime) -> io::Result<()> {
    let mut text = Vec::new(rt.alloc());
    rt.reader().read_to_end(&mut text)?;
    lines(&rt, &text)
}
