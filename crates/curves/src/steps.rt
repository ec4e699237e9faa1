ghost use Rattle.std.specs.Prelude.{◌≡◌, ◌<◌, ◌≤◌, length, pos, MatchOption};
ghost use Rattle.curves.specs.Curve.{rises, climbs, above, last_upper, capped_steps};
ghost use Rattle.curves.specs.Places.{packed, Packed};
ghost use Rattle.curves.specs.Priced.{priceable, step_cost};

use crate::curve::{cap_each, cost_at};

// A step of an offer: its power up to `upper` kW, at `price` centavos per MWh.
#[derive(Clone, Copy)]
pub struct Step {
    pub upper: i64,
    pub price: i64,
}

// How many steps a body has room for.
pub const PLACES: usize = 8;

// The largest output of some book, in kW.
const MOST_OUTPUT: i64 = 2_000_000;

// The largest price of some book either way, in centavos per MWh.
const MOST_PRICE: i64 = 10_000_000;

// The steps of a body, in the first `count` of the places; the others hold no step. A body is plain data that is copied, and no memory is allocated.
#[derive(Clone, Copy)]
pub struct Steps {
    places: [Step; PLACES],
    count: usize,
    pub ghost in_places: { Packed places count },
}

impl Steps {
    ghost use Rattle.curves.specs.Steps.{steps_in, lowered};

    // These steps, if there is room for them: one cause of refusal, and no error type for a `TryFrom`.
    pub fn of(steps: &[Step]) -> Option<Steps>
        ensures { MatchOption result (8 < length steps.now) (λ s. (s.places ≡ packed steps.now) × (steps_in s ≡ steps.now)) }
    {
        if steps.len() > PLACES {
            return None;
        }
        let mut places = [Step { upper: 0, price: 0 }; PLACES];
        places[..steps.len()].copy_from_slice(steps);
        Some(Steps {
            places,
            count: steps.len(),
        })
    }

    // The steps.
    pub fn used(&self) -> &[Step]
        ensures { result.now ≡ steps_in self.now }
    {
        &self.places[..self.count]
    }

    // How many steps there are.
    pub fn count(&self) -> usize
        ensures value { result ≡ length (steps_in self.now) }
        ensures few { result ≤ 8 }
    {
        self.count
    }

    // Whether upper kW rise strictly, from at least 1.
    pub fn is_rising(&self) -> bool
        ensures { result ≡ rises (pos 0) (steps_in self.now) }
    {
        let steps = self.used();
        steps.first().is_none_or(|s| 0 < s.upper) && steps.is_sorted_by(|a, b| a.upper < b.upper)
    }

    // Whether prices never fall, from at least the floor.
    pub fn is_climbing(&self, floor: i64) -> bool
        ensures { result ≡ climbs floor (steps_in self.now) }
    {
        let steps = self.used();
        steps.first().is_none_or(|s| floor <= s.price)
            && steps.is_sorted_by(|a, b| a.price <= b.price)
    }

    // Whether some price is above the ceiling.
    pub fn is_above(&self, ceiling: i64) -> bool
        ensures { result ≡ above ceiling (steps_in self.now) }
    {
        self.used().iter().any(|s| s.price > ceiling)
    }

    // The last upper kW, or 0.
    pub fn last_upper(&self) -> i64
        ensures { result ≡ last_upper (pos 0) (steps_in self.now) }
    {
        self.used().last().map_or(0, |s| s.upper)
    }

    // The cost of one hour at an output from 0 to 2,000,000 kW, of steps that some book could admit; else 0.
    pub fn cost(&self, output: i64) -> i64
        ensures { result ≡ step_cost (steps_in self.now) output }
    {
        if self.is_priceable() && (0..=MOST_OUTPUT).contains(&output) {
            cost_at(self.used(), output)
        } else {
            0
        }
    }

    fn is_priceable(&self) -> bool
        ensures { result ≡ priceable (steps_in self.now) }
    {
        // `priceable` asks for it, and the type holds it.
        prove!(self.count <= PLACES);
        self.is_rising() && self.is_climbing(-MOST_PRICE) && !self.is_above(MOST_PRICE)
    }

    // Each price the lesser of itself and the ceiling.
    pub fn capped(&self, ceiling: i64) -> Steps
        ensures list { steps_in result ≡ capped_steps ceiling (steps_in self.now) }
        ensures all { result ≡ lowered self.now ceiling }
    {
        let mut places = self.places;
        cap_each(&mut places[..self.count], ceiling);
        Steps {
            places,
            count: self.count,
        }
    }
}
