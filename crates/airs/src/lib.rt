// What is said of the air at one point, from the gases there.
#![tactic(auto)]

ghost use Rattle.std.specs.Prelude.{◌≡◌};
ghost use Rattle.airs.specs.Airs.{air_of, number_of};

// How much of each gas there is at a point.
#[derive(Clone, Copy)]
pub struct Gases {
    pub carbon_monoxide: f64,
    pub nitrogen: f64,
    pub oxygen: f64,
}

// A ratio, or why there is none: a field that cannot be used, or fresh air.
#[derive(Clone, Copy)]
pub enum Air {
    Ratio(f64),
    Unusable,
    Fresh,
}

// The floor is tested before the division, so that nothing below it is ever divided by.
pub fn air_of(floor: f64, gases: Gases) -> Air
    ensures { result ≡ air_of floor gases.carbon_monoxide gases.nitrogen gases.oxygen }
{
    let co = gases.carbon_monoxide;
    let deficiency = 0.265 * gases.nitrogen - gases.oxygen;
    if !common::is_finite(deficiency) {
        return Air::Unusable;
    }
    if deficiency < floor {
        return Air::Fresh;
    }
    let ratio = (100.0 * co) / deficiency;
    if common::is_finite(ratio) {
        return Air::Ratio(ratio);
    }
    Air::Unusable
}

// The byte that tells it.
pub fn number_of(air: Air) -> u8
    ensures { result ≡ number_of air }
{
    match air {
        Air::Ratio(_) => 0,
        Air::Unusable => 1,
        Air::Fresh => 2,
    }
}
