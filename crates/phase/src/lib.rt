// The gear of each second before corrections (01, Gear of each second). The gears outside stop come from the vehicle's crate; here is no vehicle.
#![tactic(auto)]

ghost use Rattle.std.specs.Prelude.{◌≡◌, ◌++◌, ◌*◌, ◌≤◌, length, get_or, drop};
ghost use Rattle.house.specs.House.{Lasts};
ghost use Rattle.row.specs.Row.{HaveSeconds};
ghost use Rattle.phase.specs.Phase.{stop_end, stop_gear, gear_by, first_row, Carried};

use house::HouseFile;

// The end of the stop run that reaches second k.
fn stop_end(trace: HouseFile, k: usize) -> usize
    requires { k ≤ trace.seconds }
    ensures { (result ≡ stop_end trace.entry.bytes.now trace.entry.seconds k) × (k ≤ result) }
{
    for i in k..trace.seconds {
        if !trace.is_stop(i) {
            return i;
        }
    }
    trace.seconds
}

// The same, where the end of the run is carried from the second before: a run is gone through once, however long it is.
pub fn stop_end_from(trace: HouseFile, k: usize, end: usize) -> usize
    requires { (k ≤ trace.seconds) × (Carried trace.bytes.now trace.seconds k end) }
    ensures { (result ≡ stop_end trace.entry.bytes.now trace.entry.seconds k) × (k ≤ result) }
{
    if k < end {
        return end;
    }
    stop_end(trace, k)
}

fn stop_gear(left: usize) -> u8
    ensures { result ≡ stop_gear left }
{
    if 5 < left { 0 } else { 1 }
}

// Second k, of whose stop run `left` seconds are left.
pub fn first_gear(flags: u8, own: u8, left: usize) -> u8
    ensures { result ≡ gear_by flags own left }
{
    if house::is_stop(flags) {
        stop_gear(left)
    } else {
        own
    }
}

// The row before corrections, from the gears outside stop.
#[tactic(auto, unfolding(crate::specs::Phase::first_gear, crate::specs::Phase::first_row))]
pub fn first_row(trace: HouseFile, own: &[u8], row: &mut [u8])
    requires { (2 * trace.seconds ≤ length row.old) × (trace.seconds ≤ length own.now) }
    ensures { row.new ≡ first_row (λ k. get_or own.now k 0) trace.entry.bytes.now trace.entry.seconds ++ drop (2 * trace.entry.seconds) row.old }
{
    let mut end = 0;
    for k in 0..trace.seconds {
        end = stop_end_from(trace, k, end);
        row[2 * k] = first_gear(trace.flags(k), own[k], end - k);
        row[2 * k + 1] = 0;
    }
}
