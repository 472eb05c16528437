// One part of a test (01, Bag sheet and figures): the stages in their order, the same for every gas but for NOx's Kh and for the fifth, whose ends come of two readings.
#![tactic(auto)]

ghost use Rattle.std.specs.Prelude.{◌≡◌};
ghost use Rattle.part.specs.Part.{g_in, diluted, dry_enough, with_nmhc, staged_of, gas_mass, masses_of, volume_in, corrected_for, rates_of, mass_in, part_of};
ghost use Rattle.arith.specs.Fitting.{Sized};
ghost use Rattle.bag.specs.Sound.{Ranged, RangedTriple};
ghost use Rattle.stage.specs.Ranges.{largest_kh};
ghost use Rattle.sides.specs.Ranges.{ReadingSizes};
ghost use Rattle.part.specs.Ranges.{StagedRanges, MassesRanges, GasRanges, DryMassSizes, RatesRanges, PartRanges};

use arith::Ends;
use bag::{Densities, Part, Triple};
use cutter::Cutter;
use sides::{Gases, Sides};

// The volume in ml, masses in micrograms, rates in micrograms/km.
#[repr(C)]
#[derive(Clone, Copy)]
pub struct PartResult {
    pub volume: Ends,
    pub mass: Gases,
    pub rate: Gases,
}

pub fn g_in(triple: Triple, bag: Gases) -> Ends
    requires { (RangedTriple triple) × (ReadingSizes bag) }
    ensures { result ≡ g_in triple bag }
{
    stage::g_of(bag.co2, bag.co, bag.hc, triple.wc, triple.wh)
}

// Refusal 13 where it does not hold.
pub fn is_diluted(triple: Triple, bag: Gases) -> bool
    requires { (RangedTriple triple) × (ReadingSizes bag) }
    ensures { result ≡ diluted triple bag }
{
    stage::dilution_good(g_in(triple, bag), stage::q_of(triple.d))
}

// What the stages take of what was read: the fifth gas in the place of the reading behind the cutter, or nothing where the test has none.
#[tactic(auto, unfolding(sides::specs::Gases::each, crate::specs::Part::with_nmhc))]
fn with_nmhc(c: Cutter, read: Gases) -> Gases
    requires { StagedRanges c read }
    ensures { result ≡ with_nmhc c read }
{
    let nmhc = cutter::nmhc(c, read.hc, read.nmhc);
    Gases { nmhc, ..read }
}

#[tactic(auto, unfolding(crate::specs::Part::staged_of))]
fn staged(c: Cutter, sides: Sides) -> Sides
    requires { (StagedRanges c sides.bag) × (StagedRanges c sides.air) }
    ensures { result ≡ staged_of c sides }
{
    Sides {
        bag: with_nmhc(c, sides.bag),
        air: with_nmhc(c, sides.air),
    }
}

#[tactic(auto, unfolding(crate::specs::Part::gas_mass))]
fn gas_mass(volume: Ends, bag: Ends, air: Ends, g: Ends, q: u32, density: u32) -> Ends
    requires { GasRanges volume bag air g q density }
    ensures { result ≡ gas_mass volume bag air g q density }
{
    let concentration = stage::concentration(bag, air, g, q);
    stage::mass(stage::gas_volume(volume, concentration), density)
}

#[tactic(auto, unfolding(sides::specs::Gases::each, crate::specs::Part::masses_of))]
fn masses(volume: Ends, sides: Sides, g: Ends, q: u32, density: Densities) -> Gases
    requires { MassesRanges volume sides g q density }
    ensures { result ≡ masses_of volume sides g q density }
{
    Gases {
        hc: gas_mass(volume, sides.bag.hc, sides.air.hc, g, q, density.hc),
        co: gas_mass(volume, sides.bag.co, sides.air.co, g, q, density.co),
        nox: gas_mass(volume, sides.bag.nox, sides.air.nox, g, q, density.nox),
        co2: gas_mass(volume, sides.bag.co2, sides.air.co2, g, q, density.co2),
        nmhc: gas_mass(volume, sides.bag.nmhc, sides.air.nmhc, g, q, density.nmhc),
    }
}

// Kh is for NOx alone.
#[tactic(auto, unfolding(crate::specs::Part::corrected_for, sides::specs::Gases::each))]
fn corrected_for(kh: Ends, mass: Gases) -> Gases
    requires { (DryMassSizes mass) × (Sized largest_kh kh) }
    ensures { result ≡ corrected_for kh mass }
{
    let nox = stage::nox_mass(mass.nox, kh);
    Gases { nox, ..mass }
}

#[tactic(auto, unfolding(sides::specs::Gases::each, crate::specs::Part::rates_of))]
fn rates(mass: Gases, distance: u32) -> Gases
    requires { RatesRanges mass distance }
    ensures { result ≡ rates_of mass distance }
{
    Gases {
        hc: stage::rate(mass.hc, distance),
        co: stage::rate(mass.co, distance),
        nox: stage::rate(mass.nox, distance),
        co2: stage::rate(mass.co2, distance),
        nmhc: stage::rate(mass.nmhc, distance),
    }
}

fn volume_in(p: Part) -> Ends
    requires { Ranged p }
    ensures { result ≡ volume_in p }
{
    stage::volume(
        p.pump,
        p.revolutions,
        p.barometer,
        p.depression,
        p.temperature,
    )
}

// Refusal 14 where it does not hold.
pub fn is_dry_enough(p: Part) -> bool
    requires { Ranged p }
    ensures { result ≡ dry_enough p }
{
    stage::humidity_good(p.humidity, p.saturation, p.barometer)
}

#[tactic(auto, unfolding(crate::specs::Part::mass_in))]
fn mass_in(triple: Triple, c: Cutter, p: Part, sides: Sides) -> Gases
    requires { PartRanges triple c p sides }
    ensures { result ≡ mass_in triple c p sides }
{
    let g = g_in(triple, sides.bag);
    let q = stage::q_of(triple.d);
    let dry = masses(volume_in(p), staged(c, sides), g, q, p.density);
    let kh = stage::kh(p.humidity, p.saturation, p.barometer);
    corrected_for(kh, dry)
}

#[tactic(auto, unfolding(crate::specs::Part::part_of))]
pub fn part_of(triple: Triple, c: Cutter, p: Part, sides: Sides) -> PartResult
    requires { PartRanges triple c p sides }
    ensures { result ≡ part_of triple c p sides }
{
    let mass = mass_in(triple, c, p, sides);
    PartResult {
        volume: volume_in(p),
        mass,
        rate: rates(mass, p.distance),
    }
}
