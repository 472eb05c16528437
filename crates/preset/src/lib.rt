// What a fuel brings to the bag sheet (001, paragraph 8): fields 9 and 10, and field 11 with the density of the test fuel, which is measured. 001 has no density of the fifth
// gas: it stands as 0, which is refused (11), and has to be given.
#![tactic(auto)]

ghost use Rattle.std.specs.Prelude.{◌≡◌};
ghost use Rattle.preset.specs.Preset.{preset_with, petrol_of, diesel_of};

use bag::{Densities, Fuel, Triple};

#[repr(C)]
#[derive(Clone, Copy)]
pub struct Preset {
    pub density: Densities,
    pub triple: Triple,
    pub fuel: Fuel,
}

// The fuels differ in HC's density (8-2), in D (8-12, 8-13), and in k and HC's factor (8-14, 8-15).
fn preset_with(hc: u32, d: u32, k: u32, factor: u32, density: u32) -> Preset
    ensures { result ≡ preset_with hc d k factor density }
{
    Preset {
        density: Densities {
            hc,
            co: 1160000,
            nox: 1910000,
            co2: 1830000,
            nmhc: 0,
        },
        triple: Triple { d, wc: 10, wh: 10 },
        fuel: Fuel {
            k,
            hc: factor,
            co: 429,
            co2: 273,
            density,
        },
    }
}

// The fuel's density in g/l.
pub fn petrol(fuel_density: u32) -> Preset
    ensures { result ≡ petrol_of fuel_density }
{
    preset_with(577000, 134, 1155, 866, fuel_density)
}

// As `petrol`. The triple's 13.3 stands for 001's 13.28 (8-13), which tenths cannot hold.
pub fn diesel(fuel_density: u32) -> Preset
    ensures { result ≡ diesel_of fuel_density }
{
    preset_with(579000, 133, 1160, 862, fuel_density)
}
