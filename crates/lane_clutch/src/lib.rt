// The clutch of all lanes (01, Gear of each second; 02, M-100), by the lowest engine speed of each lane's vehicle in whole tenths, from tables: in lines 9 to 16, for each gear from 1 to 8, the
// least tenth at which the engine turns no slower. A lane's byte has the gear, and 128 more where the clutch is out.
#![tactic(auto)]

ghost use Rattle.std.specs.Prelude.{◌≡◌, true, cond, ◌+◌, ◌*◌, ◌<◌, ◌≤◌, eqb, length};
ghost use Rattle.house.specs.House.{Lasts};
ghost use Rattle.lanes.specs.Lanes.{lane_at, line_by};
ghost use Rattle.lane_clutch.specs.Clutch.{limit_of, drives_lane, clutched, clutch_line, Tops, Clutches};

use house::HouseFile;
use vehicle::Vehicle;

// What the tables have of a vehicle for a gear; 0 for a gear that it has not, which no row has.
pub fn limit(v: Vehicle, gear: usize) -> u16
    requires { (1 ≤ gear) × (gear ≤ 8) }
    ensures { result ≡ limit_of v.sheet gear }
{
    let v = v.sheet;
    let ndv = v.ndv;
    if (v.gears as usize) < gear {
        return 0;
    }
    tenths::not_below(vehicle::lowest_engine_speed(v), ndv[gear - 1])
}

// How many gears are that of the lane and turn its engine fast enough: 1, or none. Always eight, and no exit: so the compiler works on all lanes at once.
fn drives(tables: &[u16], speed: u16, gear: u8, j: usize) -> u8
    requires { (272 ≤ length tables.now) × (j < 16) }
    ensures { result ≡ drives_lane tables.now speed gear j 8 }
{
    let mut count = 0;
    for i in 0..8 {
        let own = gear == (i + 1) as u8;
        count += u8::from(own & (tables[16 * (i + 9) + j] <= speed));
    }
    count
}

fn clutched(out: bool, gear: u8) -> u8
    ensures { result ≡ clutched out gear }
{
    if out { gear % 128 + 128 } else { gear % 128 }
}

fn put_out(lanes: &mut [u8], k: usize)
    requires { 16 * k + 16 ≤ length lanes.old }
    ensures { lanes.new ≡ line_by (λ m j. clutched true (lane_at m j k)) k lanes.old 16 }
{
    for j in 0..16 {
        lanes[16 * k + j] = clutched(true, lanes[16 * k + j]);
    }
}

fn put_clutch(tables: &[u16], speed: u16, lanes: &mut [u8], k: usize)
    requires { (272 ≤ length tables.now) × (16 * k + 16 ≤ length lanes.old) }
    ensures { lanes.new ≡ line_by (λ m j. clutched (eqb (drives_lane tables.now speed (lane_at m j k) j 8) 0) (lane_at m j k)) k lanes.old 16 }
{
    for j in 0..16 {
        let gear = lanes[16 * k + j];
        let driven = drives(tables, speed, gear, j);
        lanes[16 * k + j] = clutched(driven == 0, gear);
    }
}

// The highest of the tables: from there on every engine turns fast enough.
fn highest(tables: &[u16]) -> u16
    requires { 272 ≤ length tables.now }
    ensures { Tops tables.now 272 result }
{
    let mut most = 0;
    for i in 144..272 {
        most = most.max(tables[i]);
    }
    most
}

// Second k.
fn clutch_second(tables: &[u16], top: u16, flags: u8, speed: u16, lanes: &mut [u8], k: usize)
    requires { (272 ≤ length tables.now) × (16 * k + 16 ≤ length lanes.old) }
    ensures { lanes.new ≡ clutch_line tables.now top flags speed k lanes.old }
{
    if house::is_stop(flags) | (speed < 100) {
        put_out(lanes, k);
    } else {
        if speed < top {
            put_clutch(tables, speed, lanes, k);
        }
    }
}

// The clutch of each second of all rows, by the gears that they have.
pub fn set_clutch(trace: HouseFile, tables: &[u16], lanes: &mut [u8])
    requires { (272 ≤ length tables.now) × (16 * trace.seconds ≤ length lanes.old) }
    ensures { Clutches trace.entry.bytes.now tables.now lanes.old lanes.new trace.entry.seconds }
{
    let top = highest(tables);
    for k in 0..trace.seconds {
        let speed = trace.speed(k) as u16;
        clutch_second(tables, top, trace.flags(k), speed, lanes, k);
    }
}
