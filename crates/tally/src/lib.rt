// One gas over the records of a lot (02, M-105): what is kept of it, one record more, and what it comes to. All is numbers: the records stand in lot.
#![tactic(auto)]

ghost use Rattle.std.specs.Prelude.{◌≡◌, cond, ◌<◌};
ghost use Rattle.std.specs.Int.Signed.{le_z};
ghost use Rattle.arith.specs.Fitting.{Sized};
ghost use Rattle.tally.specs.Entries.{entry, plus_if, most_end, beyond, faulty_ends};
ghost use Rattle.tally.specs.Kept.{no_tally, added_to, mean_by, gas_sheet_by};
ghost use Rattle.tally.specs.Room.{Roomy};

use arith::Ends;

// The mean's ends in micrograms/km, rounded outward, and the index of the record with the greatest upper end.
#[derive(Clone, Copy)]
pub struct Mean {
    pub ends: Ends,
    pub worst: u32,
}

// A gas of the lot sheet: how many records passed, failed and were undecided, and the sums of their lower and of their upper ends. Of no record there is no mean.
#[derive(Clone, Copy)]
pub struct GasSheet {
    pub passed: u32,
    pub failed: u32,
    pub undecided: u32,
    pub sum: Ends,
    pub mean: Option<Mean>,
}

// What is kept of one gas over some records: how many there are, how many of them passed and failed, the sums, and the index of the one with the greatest upper
// end, which is `greatest`.
#[derive(Clone, Copy)]
pub struct Tally {
    pub count: u32,
    pub passed: u32,
    pub failed: u32,
    pub worst: u32,
    pub greatest: i64,
    pub sum: Ends,
}

fn is_beyond(n: i64) -> bool
    ensures { result ≡ beyond n }
{
    (n < -10000000000000) | (10000000000000 < n)
}

#[tactic(auto, unfolding(crate::specs::Entries::faulty_ends))]
pub fn is_faulty_ends(e: Ends) -> bool
    ensures { result ≡ faulty_ends e }
{
    (e.upper < e.lower) | (is_beyond(e.lower) | is_beyond(e.upper))
}

fn plus_if(holds: bool, n: u32) -> u32
    requires { n < 256 }
    ensures { result ≡ plus_if holds n }
{
    n + u32::from(holds)
}

// A gas of one record more, before the others. An equal upper end is the earlier record's.
#[tactic(auto, unfolding(crate::specs::Kept::added_to))]
pub fn added(at: u32, ends: Ends, verdict: u32, after: Tally) -> Tally
    requires { (Sized most_end ends) × (Roomy 255 after) }
    ensures { result ≡ added_to (entry at ends verdict) after }
{
    let is_worst = after.greatest <= ends.upper;
    Tally {
        count: after.count + 1,
        passed: plus_if(verdict == 1, after.passed),
        failed: plus_if(verdict == 2, after.failed),
        worst: if is_worst { at } else { after.worst },
        greatest: after.greatest.max(ends.upper),
        sum: arith::sum(ends, after.sum),
    }
}

#[tactic(auto, unfolding(crate::specs::Kept::no_tally, crate::specs::Kept::tally_of))]
pub fn no_tally() -> Tally
    ensures { result ≡ no_tally }
{
    Tally {
        count: 0,
        passed: 0,
        failed: 0,
        worst: 0,
        greatest: -10000000000000,
        sum: arith::exactly(0),
    }
}

#[tactic(auto, unfolding(crate::specs::Kept::mean_by))]
fn mean_by(t: Tally) -> Option<Mean>
    requires { Roomy 256 t }
    ensures { result ≡ mean_by t }
{
    let n = t.count;
    if n == 0 {
        return None;
    }
    Some(Mean {
        ends: arith::divided(t.sum, i64::from(n)),
        worst: t.worst,
    })
}

#[tactic(auto, unfolding(crate::specs::Kept::gas_sheet_by))]
pub fn gas_sheet_by(t: Tally) -> GasSheet
    requires { Roomy 256 t }
    ensures { result ≡ gas_sheet_by t }
{
    GasSheet {
        passed: t.passed,
        failed: t.failed,
        undecided: t.count - (t.passed + t.failed),
        sum: t.sum,
        mean: mean_by(t),
    }
}
