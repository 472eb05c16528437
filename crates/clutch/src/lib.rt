// The clutch of each second of a finished row (01, Gear of each second; 02, M-100).
#![tactic(auto)]

ghost use Rattle.std.specs.Prelude.{◌≡◌, ◌*◌, ◌≤◌, length};
ghost use Rattle.row.specs.Row.{HaveSeconds};
ghost use Rattle.clutch.specs.Clutch.{clutch_of, clutch_by, with_clutch};

use house::HouseFile;
use vehicle::VehicleSheet;

#[tactic(auto, unfolding(crate::specs::Clutch::clutch_of))]
pub fn clutch_of(v: VehicleSheet, flags: u8, speed: u32, gear: u8) -> u8
    ensures { result ≡ clutch_of v flags speed gear }
{
    if house::is_stop(flags) | (speed < 100) | vehicle::below_lowest(v, gear, speed) {
        1
    } else {
        0
    }
}

// The clutch of each second, by the gear that the row has there.
#[tactic(auto, unfolding(crate::specs::Clutch::with_clutch))]
pub fn set_clutch(v: VehicleSheet, trace: HouseFile, row: &mut [u8])
    requires { 2 * trace.seconds ≤ length row.old }
    ensures { row.new ≡ with_clutch (clutch_by v trace.entry.bytes.now) row.old trace.entry.seconds }
{
    for k in 0..trace.seconds {
        let speed = trace.speed(k) as u32;
        row[2 * k + 1] = clutch_of(v, trace.flags(k), speed, row[2 * k]);
    }
}
