// Correction 6, and the six corrections in order, in place (01, Corrections). They see the trace and no vehicle. The gear of second k is the row's
// byte 2 k.
#![tactic(auto)]

ghost use Rattle.std.specs.Prelude.{◌≡◌, true, ◌+◌, ◌-◌, ◌*◌, ◌≤◌, ◌<◌, length};
ghost use Rattle.house.specs.House.{Lasts};
ghost use Rattle.row.specs.Row.{HaveSeconds};
ghost use Rattle.runs.specs.Runs.{run_end, has_no_first, filled, takes, smoothed, Turn};
ghost use Rattle.runs.specs.Corrected.{corrected};

use house::HouseFile;
use row::Rule;

// Where a run of the gear that reaches second `from` ends.
fn run_end(trace: HouseFile, row: &[u8], gear: u8, from: usize) -> usize
    requires in_row { 2 * trace.seconds ≤ length row.now }
    requires from_there { from ≤ trace.seconds }
    ensures { (result ≡ run_end trace.entry.bytes.now row.now gear from (trace.entry.seconds - from)) × (from ≤ result) × (result ≤ trace.entry.seconds) }
{
    for k in from..trace.seconds {
        let goes_on = !trace.is_stop(k) & (row[2 * k] == gear);
        if !goes_on {
            return k;
        }
    }
    trace.seconds
}

// Whether one of the seconds from `from` to before `to` is a "no 1. gear" second.
fn has_no_first(trace: HouseFile, from: usize, to: usize) -> bool
    requires lasts { to ≤ trace.seconds }
    requires from_le_to { from ≤ to }
    ensures { result ≡ has_no_first trace.entry.bytes.now from (to - from) }
{
    for k in from..to {
        if house::no_first(trace.flags(k)) {
            return true;
        }
    }
    false
}

// The gear at the seconds from `start` on.
fn fill(row: &mut [u8], start: usize, count: usize, gear: u8)
    requires { 2 * (start + count) ≤ length row.old }
    ensures { row.new ≡ filled row.old start gear count }
{
    for k in 0..count {
        let at = start + k;
        row[2 * at] = gear;
    }
}

// Whether the run from `start` to before `end` takes the gear beside it. That it does tells the caller that there is a second at `end`.
#[tactic(auto, unfolding(crate::specs::Runs::takes))]
fn takes(trace: HouseFile, row: &[u8], start: usize, end: usize) -> bool
    requires in_row { 2 * trace.seconds ≤ length row.now }
    requires start_lt_end { (start < end) × (end ≤ trace.seconds) }
    ensures { (result ≡ takes trace.entry.bytes.now row.now trace.entry.seconds start end) × (result ≡ true → end < trace.entry.seconds) }
{
    if start == 0 {
        return false;
    }
    if trace.seconds <= end {
        return false;
    }
    // a long run is not gone through once more
    if 4 < end - start {
        return false;
    }
    let prior = start - 1;
    let barred = has_no_first(trace, start, end);
    !trace.is_stop(prior)
        & !trace.is_stop(end)
        & (row[2 * prior] == row[2 * end])
        & !((row[2 * end] == 1) & barred)
}

// Judges what starts at `start`, and says where the next starts: behind the whole of a replaced run and the two beside it.
fn judge(trace: HouseFile, row: &mut [u8], start: usize) -> usize
    requires in_row { 2 * trace.seconds ≤ length row.old }
    requires start_there { start < trace.seconds }
    ensures { Turn trace.entry.bytes.now row.old trace.entry.seconds start row.new result }
{
    if trace.is_stop(start) {
        return start + 1;
    }
    let gear = row[2 * start];
    let end = run_end(trace, row, gear, start + 1);
    if takes(trace, row, start, end) {
        let beside = row[2 * end];
        fill(row, start, end - start, beside);
        let merged = row[2 * end];
        return run_end(trace, row, merged, end + 1);
    }
    end
}

// Correction 6.
fn smooth(trace: HouseFile, row: &mut [u8])
    requires { 2 * trace.seconds ≤ length row.old }
    ensures { row.new ≡ smoothed trace.entry.bytes.now row.old trace.entry.seconds }
{
    let mut start = 0;
    // no `for`: a turn goes from the first second of a run to that of the next
    while start < trace.seconds {
        start = judge(trace, row, start);
    }
}

// The six corrections.
pub fn correct(trace: HouseFile, row: &mut [u8])
    requires { 2 * trace.seconds ≤ length row.old }
    ensures { row.new ≡ corrected trace.entry.bytes.now row.old trace.entry.seconds }
{
    row::cap_runs(trace, row);
    row::pass(Rule::NoFirst, trace, row);
    row::pass(Rule::NoShift, trace, row);
    row::pass(Rule::NoDrop, trace, row);
    row::pass(Rule::OneStep, trace, row);
    smooth(trace, row);
}
