// Corrections 1 to 5 of sixteen rows beside each other, of vehicles on one trace (01, Corrections). What lane j has in line k stands at 16 k + j; a line of the gears is a second. That line k is there, and that there are sixteen
// lanes, are bounds of an index at each call: a type could say them only of the line that it was made for, so they stay clauses.
#![tactic(auto)]

ghost use Rattle.std.specs.Prelude.{◌≡◌, ◌+◌, ◌*◌, ◌<◌, ◌≤◌, length};
ghost use Rattle.house.specs.House.{Lasts};
ghost use Rattle.row.specs.declared.Rule.TheVariants.{NoFirst, NoShift, NoDrop, OneStep};
ghost use Rattle.row.specs.Corrections.{capped, cap_after};
ghost use Rattle.lanes.specs.Lanes.{lane_at, line_by};
ghost use Rattle.lanes.specs.Corrections.{rule_line, cap_lines, rule_lines, Stepped, Corrects};

use house::HouseFile;
use row::Rule;

// The gears of second k before corrections. Two lines are put from them, in one phase or another: read here first, all sixteen are fetched at once, and not lane by lane in each phase.
fn read_second(lanes: &[u8], k: usize, own: &mut [u8; 16])
    requires { 16 * k + 16 ≤ length lanes.now }
    ensures { own.new ≡ line_by (λ m j. lane_at lanes.now j k) 0 own.old 16 }
{
    for j in 0..16 {
        own[16 * 0 + j] = lanes[16 * k + j];
    }
}

// What is kept of the second before: line 0 has the cap of the next second, 1, 2 and 4 the gears after corrections 3, 4 and 5; line 3 has the gear after correction 2 on the way.
// Each loop over the lanes stores in one line alone, so that the compiler works on all sixteen at once.
fn put_cap(flags: u8, own: &[u8; 16], kept: &mut [u8; 80])
    ensures { kept.new ≡ line_by (λ m j. cap_after flags (lane_at m j 0) (lane_at own.now j 0)) 0 kept.old 16 }
{
    for j in 0..16 {
        kept[16 * 0 + j] = row::cap_after(flags, kept[16 * 0 + j], own[16 * 0 + j]);
    }
}

// Correction 1. The cap of the next second is that of this one where it counts, in a deceleration.
fn put_capped(flags: u8, own: &[u8; 16], kept: &mut [u8; 80])
    ensures { kept.new ≡ line_by (λ m j. capped flags (lane_at m j 0) (lane_at own.now j 0)) 3 kept.old 16 }
{
    for j in 0..16 {
        kept[16 * 3 + j] = row::capped(flags, kept[16 * 0 + j], own[16 * 0 + j]);
    }
}

// Corrections 2 to 5, each from the gear that the one before it left, in the line FROM, and from the gear that it left the second before with, in the line TO. The lines are
// const parameters, so that the compiler makes a function of its own of each correction, and sees one rule and its lines in it.
fn put_rule<const FROM: usize, const TO: usize>(
    rule: Rule,
    first: bool,
    former: u8,
    flags: u8,
    kept: &mut [u8; 80],
)
    requires { (FROM < 5) × (TO < 5) }
    ensures { kept.new ≡ rule_line rule first former flags FROM TO kept.old }
{
    for j in 0..16 {
        kept[16 * TO + j] = row::ruled(
            rule,
            first,
            former,
            flags,
            kept[16 * TO + j],
            kept[16 * FROM + j],
        );
    }
}

fn put_second(kept: &[u8; 80], lanes: &mut [u8], k: usize)
    requires { 16 * k + 16 ≤ length lanes.old }
    ensures { lanes.new ≡ line_by (λ m j. lane_at kept.now j 4) k lanes.old 16 }
{
    for j in 0..16 {
        lanes[16 * k + j] = kept[16 * 4 + j];
    }
}

// The lines of one second: correction 1,
fn cap_second(flags: u8, lanes: &[u8], k: usize, kept: &mut [u8; 80])
    requires { 16 * k + 16 ≤ length lanes.now }
    ensures { kept.new ≡ cap_lines flags lanes.now k kept.old }
{
    let mut own = [0; 16];
    read_second(lanes, k, &mut own);
    put_cap(flags, &own, kept);
    put_capped(flags, &own, kept);
}

// and corrections 2 to 5.
fn rule_second(first: bool, former: u8, flags: u8, kept: &mut [u8; 80])
    ensures { kept.new ≡ rule_lines first former flags kept.old }
{
    // correction 2 does not look at the gear of the second before: what stands in its line serves
    put_rule::<3, 3>(Rule::NoFirst, first, former, flags, kept);
    put_rule::<3, 1>(Rule::NoShift, first, former, flags, kept);
    put_rule::<1, 2>(Rule::NoDrop, first, former, flags, kept);
    put_rule::<2, 4>(Rule::OneStep, first, former, flags, kept);
}

fn correct_second(
    first: bool,
    former: u8,
    flags: u8,
    lanes: &mut [u8],
    k: usize,
    kept: &mut [u8; 80],
)
    requires { 16 * k + 16 ≤ length lanes.old }
    ensures { Stepped first former flags k lanes.old lanes.new kept.old kept.new }
{
    cap_second(flags, lanes, k, kept);
    rule_second(first, former, flags, kept);
    put_second(kept, lanes, k);
}

// The five corrections of all rows, from the first second to the last.
pub fn correct(trace: HouseFile, lanes: &mut [u8])
    requires { 16 * trace.seconds ≤ length lanes.old }
    ensures { Corrects trace.entry.bytes.now lanes.old lanes.new trace.entry.seconds }
{
    let mut kept = [255; 80];
    for k in 0..trace.seconds {
        let former = trace.flags(row::prior(k));
        correct_second(k == 0, former, trace.flags(k), lanes, k, &mut kept);
    }
}
