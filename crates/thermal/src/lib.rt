// Offers of thermal units.
#![tactic(auto)]

ghost use Rattle.std.specs.Prelude.{◌≡◌};
ghost use Rattle.thermal.specs.Thermals.{Admissible, written, good_status, good_limits, good_economic, good_emergency_min, good_emergency_max, good_start, good_steps};
ghost use Rattle.thermal.specs.ThermalLaws;

use curves::steps::{PLACES, Steps};
use offers::body::Body;
use offers::ceilings::{Ceilings, MAX_START};
use offers::terms::Terms;

// The offer of a thermal unit: limits in kW, start price in centavos, and steps.
#[derive(Clone, Copy)]
pub struct Thermal {
    // 0 not available, 1 economic, 2 must-run; a number, since a body may say anything and a bad one is refused
    pub status: i64,
    pub emergency_min: i64,
    pub economic_min: i64,
    pub economic_max: i64,
    pub emergency_max: i64,
    pub start_price: i64,
    pub steps: Steps,
}

impl Thermal {
    fn has_status(&self) -> bool
        ensures { result ≡ good_status self.now }
    {
        (0..=2).contains(&self.status)
    }

    fn has_limits(&self, maximum: i64) -> bool
        ensures { result ≡ good_limits self.now maximum }
    {
        self.has_economic_limits() && self.has_emergency_min() && self.has_emergency_max(maximum)
    }

    fn has_economic_limits(&self) -> bool
        ensures { result ≡ good_economic self.now }
    {
        (0..=self.economic_max).contains(&self.economic_min)
    }

    fn has_emergency_min(&self) -> bool
        ensures { result ≡ good_emergency_min self.now }
    {
        (0..=self.economic_min).contains(&self.emergency_min)
    }

    fn has_emergency_max(&self, maximum: i64) -> bool
        ensures { result ≡ good_emergency_max self.now maximum }
    {
        (self.economic_max..=maximum).contains(&self.emergency_max)
    }

    fn has_start_price(&self) -> bool
        ensures { result ≡ good_start self.now }
    {
        (0..=MAX_START).contains(&self.start_price)
    }

    fn has_steps(&self, floor: i64, cap: i64) -> bool
        ensures { result ≡ good_steps self.now floor cap }
    {
        let steps = self.steps;
        (1..=PLACES).contains(&steps.count())
            && steps.is_rising()
            && steps.last_upper() == self.economic_max
            && steps.is_climbing(floor)
            && !steps.is_above(cap)
    }
}

impl Body for Thermal {
    ghost figures = { written };

    ghost Keeps = { Admissible };

    fn fits(&self, terms: Terms) -> bool {
        self.has_status()
            && self.has_limits(terms.maximum)
            && self.has_start_price()
            && self.has_steps(terms.floor, terms.cap)
    }

    fn limit(&self) -> i64 {
        self.economic_max
    }

    fn hour_cost(&self, output: i64) -> i64 {
        self.steps.cost(output)
    }

    fn start(&self) -> i64 {
        self.start_price
    }

    fn is_above(&self, ceilings: Ceilings) -> bool {
        self.steps.is_above(ceilings.energy) || self.start_price > ceilings.start
    }

    fn lowered(&self, ceilings: Ceilings) -> Thermal {
        Thermal {
            start_price: self.start_price.min(ceilings.start),
            steps: self.steps.capped(ceilings.energy),
            ..*self
        }
    }

    ghost rules = { ThermalLaws.rules };

    ghost capping = { ThermalLaws.capping };
}
