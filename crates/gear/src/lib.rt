// The gear sheet (01, Trace to Corrections): the gear and clutch of every second of a trace, for a vehicle, into a lent buffer.
#![tactic(auto)]

ghost use Rattle.std.specs.Prelude.{◌≡◌, ◌++◌, ◌*◌, ◌≤◌, length, get_or, drop};
ghost use Rattle.shift.specs.Speeds.{shift_of};
ghost use Rattle.refusal.specs.Judging.{if_accepted};
ghost use Rattle.own.specs.Own.{judge_close, Ready};
ghost use Rattle.gear.specs.Sheet.{row_from, marks_by, judge_sheet, Taken, gear_answer, with_row, gear_buffer};

use house::HouseFile;
use refusal::Refusal;
use vehicle::{Vehicle, VehicleSheet};

// The finished row, over all of a slice.
fn finish(v: VehicleSheet, trace: HouseFile, own: &[u8], row: &mut [u8])
    requires { (length row.old ≡ 2 * trace.seconds) × (trace.seconds ≤ length own.now) }
    ensures { row.new ≡ row_from v (λ k. get_or own.now k 0) trace.entry.bytes.now trace.entry.seconds }
{
    phase::first_row(trace, own, row);
    runs::correct(trace, row);
    clutch::set_clutch(v, trace, row);
}

// The row at the front of a longer part, whose other bytes stay.
fn into_part(v: VehicleSheet, trace: HouseFile, own: &[u8], part: &mut [u8])
    requires { (2 * trace.seconds ≤ length part.old) × (trace.seconds ≤ length own.now) }
    ensures { part.new ≡ row_from v (λ k. get_or own.now k 0) trace.entry.bytes.now trace.entry.seconds ++ drop (2 * trace.entry.seconds) part.old }
{
    let m = 2 * trace.seconds;
    finish(v, trace, own, &mut part[..m]);
}

// Refusal 9, or the row at the front of the part.
fn fill(v: Vehicle, trace: HouseFile, part: &mut [u8]) -> Result<(), Refusal>
    requires { (Ready (shift_of v.sheet) trace.bytes.now trace.seconds) × (2 * trace.seconds ≤ length part.old) }
    ensures { (result ≡ judge_close (shift_of v.sheet) trace.entry.bytes.now 0 trace.entry.seconds)
        × (part.new ≡ if_accepted result (with_row v.sheet trace.entry.bytes.now trace.entry.seconds part.old) part.old) }
{
    let mut own = [0u8; 2000];
    own::own_gears(v, trace, &mut own)?;
    into_part(v.sheet, trace, &own, part);
    Ok(())
}

// Refusal 20.
fn judge_marks(v: VehicleSheet, trace: HouseFile) -> Result<(), Refusal>
    requires { trace.seconds ≤ 2000 }
    ensures { result ≡ marks_by v trace.entry.bytes.now trace.entry.seconds }
{
    if v.rules == 2 {
        return trace::judge_marks(trace);
    }
    Ok(())
}

// What the gears are worked out from.
#[derive(Clone, Copy)]
struct Inputs<'a> {
    trace: HouseFile<'a>,
    v: Vehicle,
}

// Refusals 1 to 7, 20 and 8, or the trace's seconds and the vehicle.
#[tactic(auto, unfolding(crate::specs::Sheet::judge_sheet))]
fn read_sheet<'a>(
    trace: &'a [u8],
    v: VehicleSheet,
    room: usize,
    start: usize,
) -> Result<Inputs<'a>, Refusal>
    ensures { Taken trace.entry v (judge_sheet trace.now v room start) result }
{
    let trace = trace::read(trace)?;
    let v = vehicle::read(v)?;
    judge_marks(v.sheet, trace)?;
    if room < start {
        return Err(Refusal::Room);
    }
    refusal::check(2 * trace.seconds <= room - start, Refusal::Room)?;
    Ok(Inputs { trace, v })
}

// The gears and the clutch of a trace's seconds, two bytes a second, into the buffer from the start on; or the first refusal, 1 to 7, 20, 8
// or 9, and the buffer as it was.
pub fn write_gears(
    trace: &[u8],
    v: VehicleSheet,
    buffer: &mut [u8],
    start: usize,
) -> Result<(), Refusal>
    ensures { (result ≡ gear_answer trace.now v (length buffer.old) start)
        × (buffer.new ≡ gear_buffer trace.now v buffer.old start) }
{
    let inputs = read_sheet(trace, v, buffer.len(), start)?;
    fill(inputs.v, inputs.trace, &mut buffer[start..])
}
