// The emission sheet as the compiled code gives it, for the cases of the file `stdin`: 01's known figures that are run, whole tests with every figure of
// their result, and each refusal of a bag sheet.
#![tactic(auto)]

mod output;
mod sheet;

use cases::Numbers;
use std::io;
use std::io::Read;

fn lines(rt: &impl Print, text: &[u8]) -> io::Result<()> {
    let mut lasting = Numbers::new();
    let mut own = Numbers::new();
    let mut at = 0;
    while at < text.len() {
        let line = cases::read_line(rt, text, at, &mut lasting, &mut own)?;
        if line.said.is_some() {
            output::show(rt, &own)?;
        }
        at = line.end;
    }
    Ok(())
}

fn main(rt: HostRuntime) -> io::Result<()> {
    let mut text = Vec::new(rt.alloc());
    rt.reader().read_to_end(&mut text)?;
    lines(&rt, &text)
}
