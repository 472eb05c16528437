// The records of a lot (02, M-105): what is kept of them, one record more, and the answer that it comes to. A record comes by value: the lent list itself is read
// by lot_sheet alone.
#![tactic(auto)]

ghost use Rattle.std.specs.Prelude.{◌≡◌, true, ◌<◌};
ghost use Rattle.arith.specs.Fitting.{Sized};
ghost use Rattle.refusal.specs.declared.Gas.TheVariants.{NMHC};
ghost use Rattle.record.specs.Record.{has_gas};
ghost use Rattle.tally.specs.Entries.{entry, most_end};
ghost use Rattle.tally.specs.Room.{Roomy};
ghost use Rattle.lot.specs.Lot.{faulty};
ghost use Rattle.lot.specs.Kept.{nothing, added_if, with_record, joined_to, records_read, sheet_by, finished_by};
ghost use Rattle.lot.specs.Room.{Sound, RoomyAll, RoomyRun};

use arith::Ends;
use record::Record;
use refusal::Refusal;
use tally::{GasSheet, Tally};

#[derive(Clone, Copy)]
pub struct LotSheet {
    pub hc: GasSheet,
    pub co: GasSheet,
    pub nox: GasSheet,
    pub co2: GasSheet,
    pub nmhc: GasSheet,
}

// What is kept of the records from one on to the last. Where one is faulty, the index of the first that is stands in its place.
#[derive(Clone, Copy)]
pub struct Tallies {
    pub hc: Tally,
    pub co: Tally,
    pub nox: Tally,
    pub co2: Tally,
    pub nmhc: Tally,
}

fn has_nmhc(r: Record) -> bool
    ensures { result ≡ has_gas NMHC r }
{
    r.has_nmhc != 0
}

// Refusal 21. The fifth gas is read only where it is there.
#[tactic(auto, unfolding(crate::specs::Lot::faulty))]
fn is_faulty(r: Record) -> bool
    ensures { result ≡ faulty r }
{
    let g = r.weighted;
    let nmhc = has_nmhc(r) & tally::is_faulty_ends(g.nmhc);
    tally::is_faulty_ends(g.hc)
        | (tally::is_faulty_ends(g.co)
            | (tally::is_faulty_ends(g.nox) | (tally::is_faulty_ends(g.co2) | nmhc)))
}

fn added_if(has: bool, at: u32, ends: Ends, verdict: u32, t: Tally) -> Tally
    requires { (has ≡ true → Sized most_end ends) × (Roomy 255 t) }
    ensures { result ≡ added_if has (entry at ends verdict) t }
{
    if has {
        tally::added(at, ends, verdict, t)
    } else {
        t
    }
}

#[tactic(auto, unfolding(crate::specs::Kept::each_tally, crate::specs::Kept::with_record))]
fn with_record(at: u32, r: Record, t: Tallies) -> Tallies
    requires { (Sound r) × (RoomyAll 255 t) }
    ensures { result ≡ with_record at r t }
{
    let g = r.weighted;
    let v = r.verdicts;
    Tallies {
        hc: tally::added(at, g.hc, v.hc, t.hc),
        co: tally::added(at, g.co, v.co, t.co),
        nox: tally::added(at, g.nox, v.nox, t.nox),
        co2: tally::added(at, g.co2, v.co2, t.co2),
        nmhc: added_if(has_nmhc(r), at, g.nmhc, v.nmhc, t.nmhc),
    }
}

// One record more, before the others: its fault comes before theirs.
#[tactic(auto, unfolding(crate::specs::Kept::joined_to))]
pub fn joined(at: usize, r: Record, after: Result<Tallies, u32>) -> Result<Tallies, u32>
    requires { (at < 256) × (RoomyRun 255 after) }
    ensures { result ≡ joined_to at r after }
{
    let index = at as u32;
    if is_faulty(r) {
        return Err(index);
    }
    let t = after?;
    Ok(with_record(index, r, t))
}

#[tactic(auto, unfolding(crate::specs::Kept::each_tally, crate::specs::Kept::nothing))]
pub fn no_records() -> Result<Tallies, u32>
    ensures { result ≡ nothing }
{
    Ok(Tallies {
        hc: tally::no_tally(),
        co: tally::no_tally(),
        nox: tally::no_tally(),
        co2: tally::no_tally(),
        nmhc: tally::no_tally(),
    })
}

// How many records are read: none of a list that is too long.
pub fn records_read(n: usize) -> usize
    ensures { result ≡ records_read n }
{
    if n <= 256 { n } else { 0 }
}

#[tactic(auto, unfolding(crate::specs::Lot::each_sheet, crate::specs::Kept::sheet_by))]
fn sheet_by(t: Tallies) -> LotSheet
    requires { RoomyAll 256 t }
    ensures { result ≡ sheet_by t }
{
    LotSheet {
        hc: tally::gas_sheet_by(t.hc),
        co: tally::gas_sheet_by(t.co),
        nox: tally::gas_sheet_by(t.nox),
        co2: tally::gas_sheet_by(t.co2),
        nmhc: tally::gas_sheet_by(t.nmhc),
    }
}

// What a list of n records is answered with, from what was kept of those that were read: 18, then 21, or the sheet.
#[tactic(auto, unfolding(crate::specs::Kept::finished_by))]
pub fn finished(n: usize, running: Result<Tallies, u32>) -> Result<LotSheet, Refusal>
    requires { RoomyRun 256 running }
    ensures { result ≡ finished_by n running }
{
    refusal::check(n <= 256, Refusal::LotSize)?;
    let t = running.map_err(|index| Refusal::LotRecord { index })?;
    Ok(sheet_by(t))
}
