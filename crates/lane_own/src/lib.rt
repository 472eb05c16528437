// The gears of all lanes before corrections (01, Gear of each second), by the shift speeds of each lane's vehicle in whole tenths, from tables: in lines 0 to 6 the upshifts, in 7 the last of
// them once more, in 8 the least tenth at or above the downshift 2 to 1.
#![tactic(auto)]

ghost use Rattle.std.specs.Prelude.{◌≡◌, cond, ◌+◌, ◌-◌, ◌*◌, ◌<◌, ◌≤◌, length};
ghost use Rattle.house.specs.House.{Lasts, acceleration};
ghost use Rattle.phase.specs.Phase.{gear_by};
ghost use Rattle.lanes.specs.Lanes.{line_by};
ghost use Rattle.lane_own.specs.Own.{reached_lane, own_lane, FirstRows};

use house::HouseFile;

// That the tables have their lines stays a clause, as in lane_clutch: an array's type would ask of `first_rows` just as many, and it takes longer tables too.
// How many of a lane's seven upshifts a speed has reached, counted in the table's own width.
fn reached(tables: &[u16], speed: u16, j: usize) -> u16
    requires { (144 ≤ length tables.now) × (j < 16) }
    ensures { (result ≡ reached_lane tables.now speed j 7) × (result ≤ 7) }
{
    let mut count = 0;
    for i in 0..7 {
        count += u16::from(tables[16 * i + j] <= speed);
    }
    count
}

#[tactic(auto, unfolding(crate::specs::Own::own_lane))]
fn own_gear(tables: &[u16], accelerating: bool, speed: u16, j: usize) -> u8
    requires { (144 ≤ length tables.now) × (j < 16) }
    ensures { result ≡ own_lane tables.now accelerating speed j }
{
    let all = reached(tables, speed, j);
    let top = u16::from(tables[16 * 7 + j] <= speed);
    if accelerating {
        return (all + 1) as u8;
    }
    if speed < tables[16 * 8 + j] {
        return 1;
    }
    // nothing is left where more would be taken than there is: so the compiler has one instruction for all lanes
    (all.saturating_sub(top) + 2) as u8
}

// Second k, of whose stop run `left` seconds are left.
fn put_own(tables: &[u16], flags: u8, speed: u16, left: usize, lanes: &mut [u8], k: usize)
    requires { (144 ≤ length tables.now) × (16 * k + 16 ≤ length lanes.old) }
    ensures { lanes.new ≡ line_by (λ m j. gear_by flags (own_lane tables.now (acceleration flags) speed j) left) k lanes.old 16 }
{
    let accelerating = house::is_acceleration(flags);
    for j in 0..16 {
        lanes[16 * k + j] = phase::first_gear(
            flags,
            own_gear(tables, accelerating, speed, j),
            left,
        );
    }
}

// The rows before corrections.
pub fn first_rows(trace: HouseFile, tables: &[u16], lanes: &mut [u8])
    requires { (144 ≤ length tables.now) × (16 * trace.seconds ≤ length lanes.old) }
    ensures { FirstRows trace.entry.bytes.now tables.now lanes.old lanes.new trace.entry.seconds }
{
    let mut end = 0;
    for k in 0..trace.seconds {
        end = phase::stop_end_from(trace, k, end);
        let speed = trace.speed(k) as u16;
        put_own(tables, trace.flags(k), speed, end - k, lanes, k);
    }
}
