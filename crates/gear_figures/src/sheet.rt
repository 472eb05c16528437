// The vehicle sheet of a case. The number of a field is its place, as in the table of refusals: 5 + gear has the ndv of a gear, 14 the rule set.
use cases::Numbers;
use vehicle::VehicleSheet;

pub fn vehicle_in(n: &Numbers) -> VehicleSheet {
    VehicleSheet {
        power: n.word_at(0, 1),
        mass: n.word_at(0, 2),
        rated: n.word_at(0, 3),
        idle: n.word_at(0, 4),
        gears: n.word_at(0, 5),
        ndv: [6, 7, 8, 9, 10, 11, 12, 13].map(|place| n.word_at(0, place)),
        rules: n.word_at(0, 14),
    }
}
