// Corrections 1 to 5 of a row, in place (01, Corrections). They see the trace and no vehicle. The gear of second k is the row's byte 2 k.
#![tactic(auto)]

ghost use Rattle.std.specs.Prelude.{◌≡◌, ◌+◌, ◌-◌, ◌*◌, ◌≤◌, length, min, max};
ghost use Rattle.row.specs.Corrections.{capped, cap_after, cap_runs, not_first, ruled, pass_by};

use house::HouseFile;

// A deceleration second takes the smaller of its own gear and the cap.
#[tactic(auto, unfolding(crate::specs::Corrections::capped))]
pub fn capped(flags: u8, cap: u8, own: u8) -> u8
    ensures { result ≡ capped flags cap own }
{
    if house::is_deceleration(flags) {
        own.min(cap)
    } else {
        own
    }
}

// The cap of the next second. 255 stands for no cap: no byte is above it, so the smaller of it and a gear is the gear.
#[tactic(auto, unfolding(crate::specs::Corrections::cap_after))]
pub fn cap_after(flags: u8, cap: u8, own: u8) -> u8
    ensures { result ≡ cap_after flags cap own }
{
    if house::is_acceleration(flags) {
        return own;
    }
    if house::is_deceleration(flags) {
        cap
    } else {
        255
    }
}

// Correction 1. That the row has room stays a clause, in every correction: a struct of a trace and its row would be made anew for each part of a buffer that is lent.
pub fn cap_runs(trace: HouseFile, row: &mut [u8])
    requires { 2 * trace.seconds ≤ length row.old }
    ensures { row.new ≡ cap_runs trace.entry.bytes.now row.old trace.entry.seconds }
{
    let mut cap = 255;
    for k in 0..trace.seconds {
        let flags = trace.flags(k);
        let own = row[2 * k];
        row[2 * k] = capped(flags, cap, own);
        cap = cap_after(flags, cap, own);
    }
}

// Corrections 2 to 5: one loop carries all four, and only the gear of a second differs. An enum and not a closure for each: what a correction is, is one definition over it (`by_rule`),
// which the live engine and the lanes cite too.
#[derive(Clone, Copy)]
pub enum Rule {
    NoFirst,
    NoShift,
    NoDrop,
    OneStep,
}

fn not_first(flags: u8, gear: u8) -> u8
    ensures { result ≡ not_first flags gear }
{
    if house::no_first(flags) & (gear == 1) {
        2
    } else {
        gear
    }
}

// By branches: each gear of a row waits for the one before it, and a minimum and a maximum would make it wait longer.
fn one_step(before: u8, own: u8) -> u8
    ensures { result ≡ max (before - 1) (min (before + 1) own) }
{
    if before < own {
        return before + 1;
    }
    if own < before {
        return before - 1;
    }
    own
}

// The gear that a rule gives a second with the gear `own`, after one with the flags `former` and the gear `before`.
#[tactic(auto, unfolding(crate::specs::Corrections::ruled))]
pub fn ruled(rule: Rule, first: bool, former: u8, flags: u8, before: u8, own: u8) -> u8
    ensures { result ≡ ruled rule first former flags before own }
{
    if house::is_stop(flags) {
        return own;
    }
    match rule {
        Rule::NoFirst => not_first(flags, own),
        Rule::NoShift => if house::no_shift(flags) & !first & !house::is_stop(former) {
            not_first(flags, before)
        } else {
            own
        },
        Rule::NoDrop => if house::is_acceleration(flags) & !first & house::is_acceleration(former) {
            before.max(own)
        } else {
            own
        },
        Rule::OneStep => if first { own } else { one_step(before, own) },
    }
}

// The second before k. The first has none, and what stands at 0 for it is not looked at.
pub fn prior(k: usize) -> usize
    ensures { result ≡ k - 1 }
{
    k.saturating_sub(1)
}

pub fn pass(rule: Rule, trace: HouseFile, row: &mut [u8])
    requires { 2 * trace.seconds ≤ length row.old }
    ensures { row.new ≡ pass_by rule trace.entry.bytes.now row.old trace.entry.seconds }
{
    for k in 0..trace.seconds {
        let p = prior(k);
        row[2 * k] = ruled(
            rule,
            k == 0,
            trace.flags(p),
            trace.flags(k),
            row[2 * p],
            row[2 * k],
        );
    }
}
