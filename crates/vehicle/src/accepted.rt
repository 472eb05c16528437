// A vehicle sheet that is accepted, and stays so.
ghost use Rattle.vehicle.specs.Sheet.{Sound};

use super::VehicleSheet;

#[derive(Clone, Copy)]
pub struct Vehicle {
    pub sheet: VehicleSheet,
    ghost sound: { Sound sheet },
}
