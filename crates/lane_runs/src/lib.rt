// Correction 6 of sixteen rows beside each other (01, Corrections), judged as the seconds come, as the live engine judges it (02, M-110). Of each lane's run that may still take the gear beside
// it is kept: in line 0 how many seconds it has, in line 1 the gear on its left, and 0 there for a run that stays; line 2 has how many seconds take the gear of the second now judged.
#![tactic(auto)]

ghost use Rattle.std.specs.Prelude.{◌≡◌, false, cond, ◌+◌, ◌*◌, ◌<◌, ◌≤◌, leb, length};
ghost use Rattle.house.specs.House.{Lasts};
ghost use Rattle.lanes.specs.Lanes.{lane_at, line_by};
ghost use Rattle.lane_runs.specs.Runs.{reach_by, left_after, count_after, NoneReached, taken_at, TakenTo, RunsJudged, Judges, Smooths};

use house::HouseFile;

fn reach(count: u8, left: u8, gear: u8) -> u8
    ensures { result ≡ reach_by count left gear }
{
    if left == gear { count } else { 0 }
}

// A run of four seconds that goes on stays, and so does one that could take gear 1 alone and has a "no 1. gear" second.
fn left_after(marked: bool, count: u8, left: u8, before: u8, gear: u8) -> u8
    ensures { result ≡ left_after marked count left before gear }
{
    if gear == before {
        if (3 < count) | (marked & (left == 1)) {
            0
        } else {
            left
        }
    } else {
        if (left == gear) | (marked & (before == 1)) {
            0
        } else {
            before
        }
    }
}

// Five are as good as more.
fn count_after(count: u8, before: u8, gear: u8) -> u8
    ensures { result ≡ count_after count before gear }
{
    if gear == before {
        if count < 5 { count + 1 } else { count }
    } else {
        1
    }
}

fn put_reach(lanes: &[u8], k: usize, runs: &mut [u8; 48])
    requires { 16 * k + 16 ≤ length lanes.now }
    ensures { runs.new ≡ line_by (λ m j. reach_by (lane_at m j 0) (lane_at m j 1) (lane_at lanes.now j k)) 2 runs.old 16 }
{
    for j in 0..16 {
        runs[16 * 2 + j] = reach(runs[16 * 0 + j], runs[16 * 1 + j], lanes[16 * k + j]);
    }
}

fn put_left(marked: bool, lanes: &[u8], p: usize, k: usize, runs: &mut [u8; 48])
    requires { (16 * p + 16 ≤ length lanes.now) × (16 * k + 16 ≤ length lanes.now) }
    ensures { runs.new ≡ line_by (λ m j. left_after marked (lane_at m j 0) (lane_at m j 1) (lane_at lanes.now j p) (lane_at lanes.now j k)) 1 runs.old 16 }
{
    for j in 0..16 {
        runs[16 * 1 + j] = left_after(
            marked,
            runs[16 * 0 + j],
            runs[16 * 1 + j],
            lanes[16 * p + j],
            lanes[16 * k + j],
        );
    }
}

fn put_count(lanes: &[u8], p: usize, k: usize, runs: &mut [u8; 48])
    requires { (16 * p + 16 ≤ length lanes.now) × (16 * k + 16 ≤ length lanes.now) }
    ensures { runs.new ≡ line_by (λ m j. count_after (lane_at m j 0) (lane_at lanes.now j p) (lane_at lanes.now j k)) 0 runs.old 16 }
{
    for j in 0..16 {
        runs[16 * 0 + j] = count_after(runs[16 * 0 + j], lanes[16 * p + j], lanes[16 * k + j]);
    }
}

// Every run stays.
fn put_none(runs: &mut [u8; 48])
    ensures { runs.new ≡ line_by (λ m j. 0) 1 runs.old 16 }
{
    for j in 0..16 {
        runs[16 * 1 + j] = 0;
    }
}

// Whether any lane reaches a second.
fn any_reached(runs: &[u8; 48]) -> bool
    ensures { result ≡ false → NoneReached runs.now }
{
    let mut any = false;
    for j in 0..16 {
        any = any | (0 < runs[16 * 2 + j]);
    }
    any
}

fn kept(takes: bool, new: u8, old: u8) -> u8
    ensures { result ≡ cond takes new old }
{
    if takes { new } else { old }
}

// Second i, which is d before second k.
fn put_taken(d: u8, runs: &[u8; 48], lanes: &mut [u8], i: usize, k: usize)
    requires { (16 * i + 16 ≤ length lanes.old) × (16 * k + 16 ≤ length lanes.old) }
    ensures { lanes.new ≡ line_by (λ m j. cond (leb d (lane_at runs.now j 2)) (lane_at m j k) (lane_at m j i)) i lanes.old 16 }
{
    for j in 0..16 {
        lanes[16 * i + j] = kept(d <= runs[16 * 2 + j], lanes[16 * k + j], lanes[16 * i + j]);
    }
}

// The second d + 1 before second k, if there is one.
fn take_one(d: usize, runs: &[u8; 48], lanes: &mut [u8], k: usize)
    requires { (d < 4) × (16 * k + 16 ≤ length lanes.old) }
    ensures { lanes.new ≡ taken_at d runs.now k lanes.old }
{
    if d < k {
        put_taken((d + 1) as u8, runs, lanes, k - (d + 1), k);
    }
}

// The last four seconds, as far as each lane reaches.
fn take_back(runs: &[u8; 48], lanes: &mut [u8], k: usize)
    requires { 16 * k + 16 ≤ length lanes.old }
    ensures { TakenTo 4 runs.now k lanes.old lanes.new }
{
    for d in 0..4 {
        take_one(d, runs, lanes, k);
    }
}

// Hardly ever any lane reaches one.
fn take_reached(runs: &[u8; 48], lanes: &mut [u8], k: usize)
    requires { 16 * k + 16 ≤ length lanes.old }
    ensures { TakenTo 4 runs.now k lanes.old lanes.new }
{
    if any_reached(runs) {
        take_back(runs, lanes, k);
    }
}

// Second k, outside stops and not behind one: p is the second before it.
fn judge_runs(marked: bool, lanes: &mut [u8], p: usize, k: usize, runs: &mut [u8; 48])
    requires { (16 * p + 16 ≤ length lanes.old) × (16 * k + 16 ≤ length lanes.old) }
    ensures { RunsJudged marked p k lanes.old lanes.new runs.old runs.new }
{
    put_reach(lanes, k, runs);
    put_left(marked, lanes, p, k, runs);
    put_count(lanes, p, k, runs);
    take_reached(runs, lanes, k);
}

// Second k, with the flags, behind one with the flags `former`.
fn judge(former: u8, flags: u8, lanes: &mut [u8], p: usize, k: usize, runs: &mut [u8; 48])
    requires { (16 * p + 16 ≤ length lanes.old) × (16 * k + 16 ≤ length lanes.old) }
    ensures { Judges former flags p k lanes.old lanes.new runs.old runs.new }
{
    if house::is_stop(flags) | house::is_stop(former) {
        put_none(runs);
    } else {
        judge_runs(house::no_first(flags), lanes, p, k, runs);
    }
}

// Correction 6 of all rows.
pub fn smooth(trace: HouseFile, lanes: &mut [u8])
    requires { 16 * trace.seconds ≤ length lanes.old }
    ensures { Smooths trace.entry.bytes.now lanes.old lanes.new trace.entry.seconds }
{
    let mut runs = [0; 48];
    let mut former = 0;
    for k in 0..trace.seconds {
        let flags = trace.flags(k);
        judge(former, flags, lanes, row::prior(k), k, &mut runs);
        former = flags;
    }
}
