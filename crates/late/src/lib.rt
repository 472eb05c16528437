// What is judged of a test once it is read: refusals 13, 14 and 19 (01, Refusal numbers; 02, M-108).
#![tactic(auto)]

ghost use Rattle.std.specs.Prelude.{◌≡◌, [], ◌∷◌};
ghost use Rattle.refusal.specs.declared.Refusal.TheVariants.{Dilution, Humidity};
ghost use Rattle.refusal.specs.Judging.{checked, checked_all};
ghost use Rattle.bag.specs.Sheet.{of_third};
ghost use Rattle.bag.specs.Sound.{Ranged, RangedTriple};
ghost use Rattle.sides.specs.Ranges.{ReadingSizes};
ghost use Rattle.part.specs.Part.{diluted, dry_enough};
ghost use Rattle.late.specs.Late.{dilution, humidity, judge_late};
ghost use Rattle.late.specs.Ranges.{LateRanges};

use bag::{BagSheet, Part, Triple};
use cutter::Cutter;
use refusal::Refusal;
use sides::{Gases, TestSides};

// Refusal 13.
fn dilution_check(part: u32, triple: Triple, bag: Gases) -> Result<(), Refusal>
    requires { (RangedTriple triple) × (ReadingSizes bag) }
    ensures { result ≡ checked (diluted triple bag) (Dilution part) (Ok tt) }
{
    refusal::check(part::is_diluted(triple, bag), Refusal::Dilution { part })
}

// Refusal 14.
fn humidity_check(part: u32, p: Part) -> Result<(), Refusal>
    requires { Ranged p }
    ensures { result ≡ checked (dry_enough p) (Humidity part) (Ok tt) }
{
    refusal::check(part::is_dry_enough(p), Refusal::Humidity { part })
}

// Parts past the class's number are not read.
fn third_dilution(class: u32, triple: Triple, bag: Gases) -> Result<(), Refusal>
    requires { (RangedTriple triple) × (ReadingSizes bag) }
    ensures { result ≡ checked_all (of_third class (dilution 3 (diluted triple bag) ∷ [])) (Ok tt) }
{
    if class == 3 {
        dilution_check(3, triple, bag)
    } else {
        Ok(())
    }
}

fn third_humidity(class: u32, third: Part) -> Result<(), Refusal>
    requires { class ≡ 3 → Ranged third }
    ensures { result ≡ checked_all (of_third class (humidity 3 (dry_enough third) ∷ [])) (Ok tt) }
{
    if class == 3 {
        humidity_check(3, third)
    } else {
        Ok(())
    }
}

// Refusals 13, 14 and 19, each over all parts before the next.
#[tactic(auto, using(refusal::proofs::Judging::one_check, refusal::proofs::Judging::one_after_another), unfolding(crate::specs::Late::late_checks))]
pub fn judge(s: BagSheet, c: Cutter, r: TestSides) -> Result<(), Refusal>
    requires { LateRanges s c r }
    ensures { result ≡ judge_late s c r }
{
    dilution_check(1, s.triple, r.first.bag)?;
    dilution_check(2, s.triple, r.second.bag)?;
    third_dilution(s.class, s.triple, r.third.bag)?;
    humidity_check(1, s.first)?;
    humidity_check(2, s.second)?;
    third_humidity(s.class, s.third)?;
    refusal::check(cutter::is_good(c), Refusal::Efficiencies)
}
