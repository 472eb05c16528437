// What a dynamometer is set to for a reference mass (02, M-103 and M-111; 001, Annex 3), by the rule that is printed under Annex 3's table. Nothing above sees the rule.
#![tactic(auto)]

ghost use Rattle.std.specs.Prelude.{◌≡◌, ◌≤◌};
ghost use Rattle.setting.specs.Annex3.{rounded, setting_answer};

use refusal::Refusal;

// Equivalent inertia mass in kg, rolling resistance of the front wheel in 0.1 N, aero drag coefficient in 0.0001 N per km/h squared: a and b.
#[derive(Clone, Copy)]
pub struct Setting {
    pub inertia: u32,
    pub resistance: u32,
    pub drag: u32,
}

// Hundredths to the nearest whole number, halves up. In whole numbers: 20 of the 41 drag coefficients that Annex 3 prints are exact halves, which halves to even would not
// give, nor floats of 32 bits.
#[tactic(auto, unfolding(crate::specs::Annex3::rounded))]
fn rounded(hundredths: u32) -> u32
    requires { hundredths ≤ 1000000 }
    ensures { result ≡ rounded hundredths }
{
    (hundredths + 50) / 100
}

// Refusal 16, or the setting of a mass in 0.1 kg.
#[tactic(auto, unfolding(crate::specs::Annex3::inertia_of, crate::specs::Annex3::setting_answer))]
pub fn setting_of(mass: u32) -> Result<Setting, Refusal>
    ensures { result ≡ setting_answer mass }
{
    refusal::check((951 <= mass) & (mass <= 10000), Refusal::ReferenceMass)?;
    let inertia = 10 * ((mass + 49) / 100);
    Ok(Setting {
        inertia,
        resistance: rounded(88 * inertia),
        drag: rounded(15 * inertia + 20000),
    })
}
