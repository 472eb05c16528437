// The live engine (02, M-110): it takes one second at a time, and gives the gear and clutch of a second at the call of the fifth after it, or at the end.
#![tactic(auto)]

ghost use Rattle.std.specs.Prelude.{◌≡◌, cond, [], ◌<◌, ltb};
ghost use Rattle.live.specs.Live.{seen, former_after, stays, longer, takes_over, reach, pending_after, stops_after, last_five, step, given_gear, due, given, packed, finish, waiting, fresh};

use clutch::clutch_of;
use row::{Rule, cap_after, capped, ruled};
use vehicle::VehicleSheet;

// The second received last, as corrections 1 to 5 have left it: its flags, the cap of the next second, and its gear after corrections 3, 4 and 5.
#[repr(C)]
#[derive(Clone, Copy)]
pub struct Former {
    pub flags: u8,
    pub cap: u8,
    pub third: u8,
    pub fourth: u8,
    pub fifth: u8,
}

// Correction 6: the run received last, while it may still take the gear beside it: how many seconds it has, the gear on its left, and whether it has a
// "no 1. gear" second, as a number, so that every state is one that a caller can hand back. One of no seconds stands for a run that stays.
#[repr(C)]
#[derive(Clone, Copy)]
pub struct Pending {
    pub count: u8,
    pub left: u8,
    pub marked: u8,
}

// What is kept: how many seconds were received, the last of them, the run that it is in, how many stop seconds in a row end with it, up to six, and the
// gears, flags and speeds of the last five, the newest first. Their clutches are told when they are given.
#[repr(C)]
#[derive(Clone, Copy)]
pub struct Live {
    pub received: u32,
    pub former: Former,
    pub pending: Pending,
    pub stops: u8,
    pub gears: [u8; 5],
    pub flags: [u8; 5],
    pub speeds: [u16; 5],
}

// What is given: of so many seconds two bytes each, the gear and the clutch, and zeros behind them.
#[repr(C)]
#[derive(Clone, Copy)]
pub struct Given {
    pub count: u32,
    pub bytes: [u8; 10],
}

// Nothing received.
pub fn fresh() -> Live
    ensures { result ≡ fresh }
{
    Live {
        received: 0,
        former: Former {
            flags: 0,
            cap: 255,
            third: 0,
            fourth: 0,
            fifth: 0,
        },
        pending: stays(),
        stops: 0,
        gears: [0; 5],
        flags: [0; 5],
        speeds: [0; 5],
    }
}

fn seen(flags: u8, own: u8) -> u8
    ensures { result ≡ seen flags own }
{
    if house::is_stop(flags) { 1 } else { own }
}

// Corrections 1 to 5, one step on. `start` says that it is the first second.
#[tactic(auto, unfolding(crate::specs::Live::fifth, crate::specs::Live::first, crate::specs::Live::former_after, crate::specs::Live::fourth, crate::specs::Live::second, crate::specs::Live::third))]
fn former_after(start: bool, f: Former, flags: u8, own: u8) -> Former
    ensures { result ≡ former_after start f flags own }
{
    let gear = seen(flags, own);
    let one = capped(flags, f.cap, gear);
    let two = ruled(Rule::NoFirst, start, f.flags, flags, 0, one);
    let three = ruled(Rule::NoShift, start, f.flags, flags, f.third, two);
    let four = ruled(Rule::NoDrop, start, f.flags, flags, f.fourth, three);
    let five = ruled(Rule::OneStep, start, f.flags, flags, f.fifth, four);
    Former {
        flags: flags,
        cap: cap_after(flags, f.cap, gear),
        third: three,
        fourth: four,
        fifth: five,
    }
}

fn stays() -> Pending
    ensures { result ≡ stays }
{
    Pending {
        count: 0,
        left: 0,
        marked: 0,
    }
}

#[tactic(auto, unfolding(crate::specs::Live::longer))]
fn longer(p: Pending, flags: u8) -> Pending
    ensures { result ≡ longer p flags }
{
    if p.count < 1 {
        return stays();
    }
    if p.count < 4 {
        Pending {
            count: p.count + 1,
            left: p.left,
            marked: u8::from((0 < p.marked) | house::no_first(flags)),
        }
    } else {
        stays()
    }
}

#[tactic(auto, unfolding(crate::specs::Live::takes_over))]
fn takes_over(p: Pending, flags: u8, gear: u8) -> bool
    ensures { result ≡ takes_over p flags gear }
{
    (0 < p.count) & !house::is_stop(flags) & (p.left == gear) & !((gear == 1) & (0 < p.marked))
}

#[tactic(auto, unfolding(crate::specs::Live::reach))]
fn reach(p: Pending, flags: u8, gear: u8) -> u8
    ensures { result ≡ reach p flags gear }
{
    if takes_over(p, flags, gear) {
        p.count
    } else {
        0
    }
}

// Correction 6: what is pending after a second with the flags and the gear, behind one with the flags `former` and the gear `before`.
#[tactic(auto, unfolding(crate::specs::Live::pending_after))]
fn pending_after(p: Pending, former: u8, before: u8, flags: u8, gear: u8) -> Pending
    ensures { result ≡ pending_after p former before flags gear }
{
    if house::is_stop(flags) {
        return stays();
    }
    if house::is_stop(former) {
        return stays();
    }
    if gear == before {
        return longer(p, flags);
    }
    if takes_over(p, flags, gear) {
        return stays();
    }
    Pending {
        count: 1,
        left: before,
        marked: u8::from(house::no_first(flags)),
    }
}

#[tactic(auto, unfolding(crate::specs::Live::stops_after))]
fn stops_after(stops: u8, flags: u8) -> u8
    ensures { result ≡ stops_after stops flags }
{
    if house::is_stop(flags) {
        if stops < 6 { stops + 1 } else { 6 }
    } else {
        0
    }
}

fn kept(old: u8, new: u8, reached: u8, i: u8) -> u8
    ensures { result ≡ cond (ltb i reached) new old }
{
    if i < reached { new } else { old }
}

#[tactic(auto, unfolding(crate::specs::Live::last_five))]
fn last_five(last: [u8; 5], new: u8, reached: u8) -> [u8; 5]
    ensures { result ≡ last_five last new reached }
{
    [
        new,
        kept(last[0], new, reached, 0),
        kept(last[1], new, reached, 1),
        kept(last[2], new, reached, 2),
        kept(last[3], new, reached, 3),
    ]
}

// A second received. Of the gears, `own` is the one of its speed; that of a stop is not looked at.
#[tactic(auto, unfolding(crate::specs::Live::former_after, crate::specs::Live::last_five, crate::specs::Live::step))]
pub fn step(s: Live, speed: u16, flags: u8, own: u8) -> Live
    requires { s.received < 2000 }
    ensures { result ≡ step s speed flags own }
{
    let old = s.former;
    let waits = s.pending;
    let gears = s.gears;
    let marks = s.flags;
    let speeds = s.speeds;
    let former = former_after(s.received == 0, old, flags, own);
    let gear = former.fifth;
    let reached = reach(waits, flags, gear);
    Live {
        received: s.received + 1,
        former: former,
        pending: pending_after(waits, old.flags, old.fifth, flags, gear),
        stops: stops_after(s.stops, flags),
        gears: last_five(gears, gear, reached),
        flags: [flags, marks[0], marks[1], marks[2], marks[3]],
        speeds: [speed, speeds[0], speeds[1], speeds[2], speeds[3]],
    }
}

fn given_gear(stops: u8, gear: u8) -> u8
    ensures { result ≡ given_gear stops gear }
{
    if 5 < stops { 0 } else { gear }
}

pub fn nothing() -> Given
    ensures { result ≡ packed 0 [] }
{
    Given {
        count: 0,
        bytes: [0; 10],
    }
}

// What the call of a second with the flags gives.
#[tactic(auto, unfolding(crate::specs::Live::given))]
pub fn give(v: VehicleSheet, s: Live, flags: u8) -> Given
    ensures { result ≡ packed (due s) (given v s flags) }
{
    let gears = s.gears;
    let marks = s.flags;
    let speeds = s.speeds;
    if s.received < 5 {
        return nothing();
    }
    let gear = given_gear(stops_after(s.stops, flags), gears[4]);
    let clutch = clutch_of(v, marks[4], u32::from(speeds[4]), gear);
    Given {
        count: 1,
        bytes: [gear, clutch, 0, 0, 0, 0, 0, 0, 0, 0],
    }
}

// How many seconds wait.
fn waiting(s: Live) -> usize
    ensures { result ≡ waiting s }
{
    if s.received < 5 {
        s.received as usize
    } else {
        5
    }
}

// What the end gives.
#[tactic(auto, unfolding(crate::specs::Live::finish))]
pub fn finish(v: VehicleSheet, s: Live) -> Given
    ensures { result ≡ packed (waiting s) (finish v s) }
{
    let gears = s.gears;
    let marks = s.flags;
    let speeds = s.speeds;
    let m = waiting(s);
    let mut bytes = [0; 10];
    for i in 0..m {
        let at = m - (i + 1);
        let gear = gears[at];
        bytes[2 * i] = gear;
        bytes[2 * i + 1] = clutch_of(v, marks[at], u32::from(speeds[at]), gear);
    }
    Given {
        count: m as u32,
        bytes: bytes,
    }
}
