// The bag sheet of a Type I test (01, Bag sheet and figures), judged: refusals 10 and 11.
#![tactic(auto)]

ghost use Rattle.std.specs.Prelude.{◌≡◌, leb};
ghost use Rattle.refusal.specs.declared.Refusal.TheVariants.{Value};
ghost use Rattle.refusal.specs.Judging.{checked, checked_all};
ghost use Rattle.refusal.specs.Ranges.{within, withinℤ};
ghost use Rattle.bag.specs.Fields.{is_within, coldest, hottest, density_range, most_limit};
ghost use Rattle.bag.specs.Sheet.{parts_of, class_holds, test_checks, pumped, value_checks, of_third, judge_sheet};

use reading::Bag;
use refusal::Refusal;

// Field 9: milligrams per cubic metre.
#[repr(C)]
#[derive(Clone, Copy)]
pub struct Densities {
    pub hc: u32,
    pub co: u32,
    pub nox: u32,
    pub co2: u32,
    pub nmhc: u32,
}

// Fields 1 to 9 of a part, in the units of 01's table, and its messages as received.
#[derive(Clone, Copy)]
pub struct Part {
    pub pump: u32,
    pub revolutions: u32,
    pub barometer: u32,
    pub depression: u32,
    pub temperature: i32,
    pub humidity: u32,
    pub saturation: u32,
    pub distance: u32,
    pub density: Densities,
    pub bag: Bag,
    pub air: Bag,
}

// Field 10: the dilution triple, in tenths.
#[repr(C)]
#[derive(Clone, Copy)]
pub struct Triple {
    pub d: u32,
    pub wc: u32,
    pub wh: u32,
}

// Field 11: k in 1/10,000, the three carbon factors in 1/1,000, the fuel's density in g/l.
#[repr(C)]
#[derive(Clone, Copy)]
pub struct Fuel {
    pub k: u32,
    pub hc: u32,
    pub co: u32,
    pub co2: u32,
    pub density: u32,
}

// Field 12: micrograms/km.
#[repr(C)]
#[derive(Clone, Copy)]
pub struct Limits {
    pub hc: u64,
    pub co: u64,
    pub nox: u64,
    pub co2: u64,
    pub nmhc: u64,
}

// Field 13: how much of methane and of ethane the cutter takes away, in thousandths.
#[repr(C)]
#[derive(Clone, Copy)]
pub struct Efficiencies {
    pub methane: u32,
    pub ethane: u32,
}

// `parts` is the number of parts given. The third is read for class 3 alone.
#[derive(Clone, Copy)]
pub struct BagSheet {
    pub class: u32,
    pub parts: u32,
    pub triple: Triple,
    pub fuel: Fuel,
    pub limits: Limits,
    pub efficiencies: Efficiencies,
    pub first: Part,
    pub second: Part,
    pub third: Part,
}

// Classes 1 and 2 have two parts, class 3 has three.
fn parts_of(class: u32) -> u32
    ensures { result ≡ parts_of class }
{
    if class == 3 { 3 } else { 2 }
}

// Refusal 10.
fn class_holds(class: u32, parts: u32) -> bool
    ensures { result ≡ class_holds class parts }
{
    (1 <= class) & (class <= 3) & (parts == parts_of(class))
}

// A number of a field.
fn value(part: u32, field: u32, least: u32, most: u32, n: u32) -> Result<(), Refusal>
    ensures { result ≡ checked (within least most n) (Value part field) (Ok tt) }
{
    refusal::check((least <= n) & (n <= most), Refusal::Value { part, field })
}

// A density of field 9.
fn density(part: u32, n: u32) -> Result<(), Refusal>
    ensures { result ≡ checked (is_within density_range n) (Value part 9) (Ok tt) }
{
    value(part, 9, 1, 2100000, n)
}

// A limit of field 12.
fn limit(n: u64) -> Result<(), Refusal>
    ensures { result ≡ checked (leb n most_limit) (Value 0 12) (Ok tt) }
{
    refusal::check(n <= 1000000000000, Refusal::Value { part: 0, field: 12 })
}

// Field 5, which may be below zero.
fn temperature(part: u32, n: i32) -> Result<(), Refusal>
    ensures { result ≡ checked (withinℤ coldest hottest n) (Value part 5) (Ok tt) }
{
    refusal::check((-400 <= n) & (n <= 1500), Refusal::Value { part, field: 5 })
}

// Fields 1 and 2 together. Two numbers of 32 bits have a product of 64.
fn pumped(part: u32, pump: u32, revolutions: u32) -> Result<(), Refusal>
    ensures { result ≡ checked (pumped pump revolutions) (Value part 2) (Ok tt) }
{
    let ml = (pump as u64) * (revolutions as u64);
    refusal::check(ml <= 1000000000, Refusal::Value { part, field: 2 })
}

// Fields 10 to 13, as part 0.
#[tactic(auto, unfolding(crate::specs::Sheet::test_checks))]
fn test_values(
    triple: Triple,
    fuel: Fuel,
    limits: Limits,
    efficiencies: Efficiencies,
) -> Result<(), Refusal>
    ensures { result ≡ checked_all (test_checks triple fuel limits efficiencies) (Ok tt) }
{
    value(0, 10, 100, 200, triple.d)?;
    value(0, 10, 0, 20, triple.wc)?;
    value(0, 10, 0, 20, triple.wh)?;
    value(0, 11, 1, 1500, fuel.k)?;
    value(0, 11, 0, 1000, fuel.hc)?;
    value(0, 11, 0, 1000, fuel.co)?;
    value(0, 11, 0, 1000, fuel.co2)?;
    value(0, 11, 600, 1000, fuel.density)?;
    limit(limits.hc)?;
    limit(limits.co)?;
    limit(limits.nox)?;
    limit(limits.co2)?;
    limit(limits.nmhc)?;
    value(0, 13, 0, 1000, efficiencies.methane)?;
    value(0, 13, 0, 1000, efficiencies.ethane)
}

// Fields 1 to 9 of a part.
#[tactic(auto, unfolding(crate::specs::Sheet::value_checks))]
fn part_values(part: u32, p: Part) -> Result<(), Refusal>
    ensures { result ≡ checked_all (value_checks part p) (Ok tt) }
{
    value(part, 1, 100, 20000, p.pump)?;
    value(part, 2, 1, 100000, p.revolutions)?;
    pumped(part, p.pump, p.revolutions)?;
    value(part, 3, 80000, 110000, p.barometer)?;
    value(part, 4, 0, 20000, p.depression)?;
    temperature(part, p.temperature)?;
    value(part, 6, 0, 1000, p.humidity)?;
    value(part, 7, 0, 12000, p.saturation)?;
    value(part, 8, 100, 100000, p.distance)?;
    density(part, p.density.hc)?;
    density(part, p.density.co)?;
    density(part, p.density.nox)?;
    density(part, p.density.co2)?;
    density(part, p.density.nmhc)
}

// Parts past the class's number are not read.
fn third_values(class: u32, third: Part) -> Result<(), Refusal>
    ensures { result ≡ checked_all (of_third class (value_checks 3 third)) (Ok tt) }
{
    if class == 3 {
        part_values(3, third)
    } else {
        Ok(())
    }
}

// The first refusal of a sheet, of 10 and 11.
#[tactic(auto, using(refusal::proofs::Judging::one_after_another), unfolding(crate::specs::Sheet::sheet_checks))]
pub fn judge(sheet: BagSheet) -> Result<(), Refusal>
    ensures { result ≡ judge_sheet sheet }
{
    refusal::check(class_holds(sheet.class, sheet.parts), Refusal::Parts)?;
    test_values(sheet.triple, sheet.fuel, sheet.limits, sheet.efficiencies)?;
    part_values(1, sheet.first)?;
    part_values(2, sheet.second)?;
    third_values(sheet.class, sheet.third)
}
