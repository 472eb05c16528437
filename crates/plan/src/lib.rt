// One trace, many vehicles: the gear sheet of each vehicle by itself, worked out for sixteen vehicles beside each other.
#![tactic(auto)]

ghost use Rattle.std.specs.Prelude.{◌≡◌, cond, ◌+◌, ◌*◌, ◌<◌, ◌≤◌, eqb, length};
ghost use Rattle.trace.specs.Judging.{judge_marks, Taken};
ghost use Rattle.vehicle.specs.Accepted.{Accepted};
ghost use Rattle.lanes.specs.Lanes.{lane_at};
ghost use Rattle.plan.specs.Plan.{sheet_at, vehicles_in, judge_room, judge_plan, with_answer, plan_answers, plan_rows};
ghost use Rattle.plan.specs.Lanes.{Read, sheet_answer, vehicle_answer, table_at, with_table, Entered, Lanes, answers_from, with_part, rows_from, lane_row, Finishes, parts_to, Writing, Planned, rows_up_to, answers_up_to};

use house::HouseFile;
use outcome::Outcome;
use refusal::Refusal;
use tenths::Tenths;
use vehicle::{Vehicle, VehicleSheet};

// The sheet of vehicle i.
#[tactic(auto, unfolding(crate::specs::Plan::sheet_at))]
fn sheet_at(sheets: &[u32], i: usize) -> VehicleSheet
    requires { 14 * i + 14 ≤ length sheets.now }
    ensures { result ≡ sheet_at sheets.now i }
{
    let at = 14 * i;
    VehicleSheet {
        power: sheets[at + 0],
        mass: sheets[at + 1],
        rated: sheets[at + 2],
        idle: sheets[at + 3],
        gears: sheets[at + 4],
        ndv: [
            sheets[at + 5],
            sheets[at + 6],
            sheets[at + 7],
            sheets[at + 8],
            sheets[at + 9],
            sheets[at + 10],
            sheets[at + 11],
            sheets[at + 12],
        ],
        rules: sheets[at + 13],
    }
}

#[tactic(auto, unfolding(crate::specs::Lanes::table_at))]
fn table_at(v: Vehicle, t: Tenths, i: usize) -> u16
    requires { i < 18 }
    ensures { result ≡ table_at v.sheet t i }
{
    let above = t.above;
    if i < 7 {
        return above[i];
    }
    if i == 7 {
        return t.last.above;
    }
    if i == 8 {
        return t.first;
    }
    if i < 17 {
        return lane_clutch::limit(v, i - 8);
    }
    1
}

// A vehicle's tables into lane j.
fn put_table(v: Vehicle, t: Tenths, tables: &mut [u16; 288], j: usize)
    requires { j < 16 }
    ensures { tables.new ≡ with_table v.sheet t j tables.old 18 }
{
    for i in 0..18 {
        tables[16 * i + j] = table_at(v, t, i);
    }
}

// Refusals 5 to 7 and 20, or the vehicle. What is wrong with the trace's marks is the same for all vehicles, and looked for once.
fn read_sheet(v: VehicleSheet, marks: Result<(), Refusal>) -> Result<Vehicle, Refusal>
    ensures { Accepted v (sheet_answer v marks) result }
{
    let vehicle = vehicle::read(v)?;
    if v.rules == 2 {
        marks?;
    }
    Ok(vehicle)
}

// A vehicle into lane j, or its refusal, and then no row is taken from the lane. What is known of an accepted trace (`Read`) stays a clause: what it is handed to takes other files too.
fn enter(
    trace: HouseFile,
    v: VehicleSheet,
    marks: Result<(), Refusal>,
    tables: &mut [u16; 288],
    j: usize,
) -> Result<(), Refusal>
    requires { (Read trace.bytes.now trace.seconds) × (marks ≡ judge_marks trace.bytes.now 0 trace.seconds) × (j < 16) }
    ensures { (result ≡ vehicle_answer trace.entry.bytes.now v trace.entry.seconds) × (Entered v result tables.old tables.new j) }
{
    tables[16 * 17 + j] = 0;
    let vehicle = read_sheet(v, marks)?;
    let t = tenths::of_vehicle(vehicle);
    own::judge_marked(t, trace)?;
    put_table(vehicle, t, tables, j);
    Ok(())
}

// The number and the place of vehicle i's refusal.
fn put_answer(answers: &mut [u32], i: usize, judged: Result<(), Refusal>)
    requires { 2 * i + 2 ≤ length answers.old }
    ensures { answers.new ≡ with_answer answers.old i judged }
{
    let o = Outcome::from(judged);
    let number = o.number;
    let place = o.at;
    answers[2 * i] = number;
    answers[2 * i + 1] = place;
}

// The vehicles from one on, as many as are said, into the lanes.
fn judge_lanes(
    trace: HouseFile,
    sheets: &[u32],
    marks: Result<(), Refusal>,
    from: usize,
    few: usize,
    tables: &mut [u16; 288],
    answers: &mut [u32],
)
    requires { (Read trace.bytes.now trace.seconds) × (marks ≡ judge_marks trace.bytes.now 0 trace.seconds) × (few ≤ 16)
        × (14 * (from + few) ≤ length sheets.now) × (2 * (from + few) ≤ length answers.old) }
    ensures { (length tables.new ≡ length tables.old)
        × (Lanes trace.entry.bytes.now sheets.now trace.entry.seconds from tables.new few)
        × (answers.new ≡ answers_from trace.entry.bytes.now sheets.now trace.entry.seconds from answers.old few) }
{
    for j in 0..few {
        let judged = enter(trace, sheet_at(sheets, from + j), marks, tables, j);
        put_answer(answers, from + j, judged);
    }
}

// The rows of all lanes: before corrections, the six corrections, and the clutch.
fn finish(trace: HouseFile, tables: &[u16; 288], lanes: &mut [u8])
    requires { (Read trace.bytes.now trace.seconds) × (16 * trace.seconds ≤ length lanes.old) }
    ensures { Finishes trace.entry.bytes.now tables.now lanes.old lanes.new trace.entry.seconds }
{
    lane_own::first_rows(trace, tables, lanes);
    lanes::correct(trace, lanes);
    lane_runs::smooth(trace, lanes);
    lane_clutch::set_clutch(trace, tables, lanes);
}

// The row of lane j, over all of a slice.
fn put_row(lanes: &[u8], row: &mut [u8], j: usize, n: usize)
    requires { (16 * n ≤ length lanes.now) × (length row.old ≡ 2 * n) × (j < 16) }
    ensures { row.new ≡ lane_row lanes.now j n }
{
    for k in 0..n {
        let byte = lanes[16 * k + j];
        row[2 * k] = byte % 128;
        row[2 * k + 1] = byte / 128;
    }
}

// The same in a part of the rows, from `at` on.
fn put_part(lanes: &[u8], rows: &mut [u8], at: usize, j: usize, n: usize)
    requires { (16 * n ≤ length lanes.now) × (at + 2 * n ≤ length rows.old) × (j < 16) }
    ensures { rows.new ≡ with_part rows.old at (2 * n) (lane_row lanes.now j n) }
{
    let to = at + 2 * n;
    put_row(lanes, &mut rows[at..to], j, n);
}

// Where the lane's vehicle is accepted.
fn put_lane(tables: &[u16; 288], lanes: &[u8], rows: &mut [u8], at: usize, j: usize, n: usize)
    requires { (16 * n ≤ length lanes.now) × (at + 2 * n ≤ length rows.old) × (j < 16) }
    ensures { rows.new ≡ cond (eqb (lane_at tables.now j 17) 1) (with_part rows.old at (2 * n) (lane_row lanes.now j n)) rows.old }
{
    if tables[16 * 17 + j] == 1 {
        put_part(lanes, rows, at, j, n);
    }
}

// The rows of the first lanes, one after the other.
fn put_lanes(tables: &[u16; 288], lanes: &[u8], rows: &mut [u8], at: usize, few: usize, n: usize)
    requires { (16 * n ≤ length lanes.now) × (few ≤ 16) × (n ≤ 2000) × (at + 2 * n * few ≤ length rows.old) }
    ensures { rows.new ≡ parts_to tables.now lanes.now n at rows.old few }
{
    let mut place = at;
    for j in 0..few {
        put_lane(tables, lanes, rows, place, j, n);
        place += 2 * n;
    }
}

// The vehicles from one on, as many as are said, whose rows begin at `at`.
fn write_lanes(
    trace: HouseFile,
    sheets: &[u32],
    marks: Result<(), Refusal>,
    from: usize,
    few: usize,
    at: usize,
    tables: &mut [u16; 288],
    lanes: &mut [u8],
    rows: &mut [u8],
    answers: &mut [u32],
)
    requires { Writing trace.bytes.now sheets.now marks trace.seconds from few at (length tables.old) (length lanes.old) (length rows.old) (length answers.old) }
    ensures { (rows.new ≡ rows_from trace.entry.bytes.now sheets.now trace.entry.seconds from rows.old few)
        × (answers.new ≡ answers_from trace.entry.bytes.now sheets.now trace.entry.seconds from answers.old few) }
{
    judge_lanes(trace, sheets, marks, from, few, tables, answers);
    finish(trace, tables, lanes);
    put_lanes(tables, lanes, rows, at, few, trace.seconds);
}

// Refusal 8. As many rows as fit are asked for, and not the bytes of all rows, which could be more than a number holds.
fn judge_room(width: usize, sheets: usize, rows: usize, answers: usize) -> Result<(), Refusal>
    requires { 0 < width }
    ensures { result ≡ judge_room width sheets rows answers }
{
    let count = sheets / 14;
    refusal::check(
        (sheets % 14 == 0) & (count <= rows / width) & (count <= answers / 2),
        Refusal::Room,
    )
}

// Refusals 1 to 4, and 8, or the trace's seconds.
#[tactic(auto, unfolding(crate::specs::Plan::judge_plan))]
fn read_plan<'a>(
    trace: &'a [u8],
    sheets: usize,
    rows: usize,
    answers: usize,
) -> Result<HouseFile<'a>, Refusal>
    ensures { Taken trace.entry (judge_plan trace.now sheets rows answers) result }
{
    let trace = trace::read(trace)?;
    judge_room(2 * trace.seconds, sheets, rows, answers)?;
    Ok(trace)
}

// All vehicles of an accepted call, in blocks of sixteen.
fn write_all(trace: HouseFile, sheets: &[u32], rows: &mut [u8], answers: &mut [u32])
    requires { Planned trace.bytes.now (length sheets.now) trace.seconds (length rows.old) (length answers.old) }
    ensures { (rows.new ≡ rows_up_to trace.entry.bytes.now sheets.now trace.entry.seconds rows.old (vehicles_in (length sheets.now)))
        × (answers.new ≡ answers_up_to trace.entry.bytes.now sheets.now trace.entry.seconds answers.old (vehicles_in (length sheets.now))) }
{
    let marks = trace::judge_marks(trace);
    let count = sheets.len() / 14;
    let mut tables = [0; 288];
    let mut lanes = [0; 32000];
    for from in (0..count).step_by(16) {
        let few = (count - from).min(16);
        let at = 2 * trace.seconds * from;
        write_lanes(
            trace,
            sheets,
            marks,
            from,
            few,
            at,
            &mut tables,
            &mut lanes,
            rows,
            answers,
        );
    }
}

// The rows and the answers of all vehicles, or the refusal of the whole call, and both buffers as they were.
pub fn plan(
    trace: &[u8],
    sheets: &[u32],
    rows: &mut [u8],
    answers: &mut [u32],
) -> Result<(), Refusal>
    ensures { (result ≡ judge_plan trace.now (length sheets.now) (length rows.old) (length answers.old))
        × (rows.new ≡ plan_rows trace.now sheets.now rows.old answers.old)
        × (answers.new ≡ plan_answers trace.now sheets.now rows.old answers.old) }
{
    let trace = read_plan(trace, sheets.len(), rows.len(), answers.len())?;
    write_all(trace, sheets, rows, answers);
    Ok(())
}
