// Offers of intermittent units.
#![tactic(auto)]

ghost use Rattle.std.specs.Prelude.{◌≡◌};
ghost use Rattle.intermittent.specs.Intermittents.{Admissible, written, good_forecast, good_price};
ghost use Rattle.intermittent.specs.IntermittentLaws;

use offers::body::Body;
use offers::ceilings::Ceilings;
use offers::terms::Terms;

// Such a unit starts for nothing.
const START_PRICE: i64 = 0;

// The offer of an intermittent unit: a forecast in kW, and one price in centavos per MWh.
#[derive(Clone, Copy, Debug, PartialEq, Eq)]
pub struct Intermittent {
    pub forecast: i64,
    pub price: i64,
}

impl Intermittent {
    fn has_forecast(&self, terms: Terms) -> bool
        ensures { result ≡ good_forecast self.now terms }
    {
        (0..=terms.maximum).contains(&self.forecast)
    }

    fn has_price(&self, terms: Terms) -> bool
        ensures { result ≡ good_price self.now terms }
    {
        (terms.floor..=terms.cap).contains(&self.price)
    }
}

impl Body for Intermittent {
    ghost figures = { written };

    ghost Keeps = { Admissible };

    fn fits(&self, terms: Terms) -> bool {
        self.has_forecast(terms) && self.has_price(terms)
    }

    fn limit(&self) -> i64 {
        self.forecast
    }

    fn hour_cost(&self, output: i64) -> i64 {
        // Of a body that some book admits, the product fits.
        output.saturating_mul(self.price)
    }

    fn start(&self) -> i64 {
        START_PRICE
    }

    fn is_above(&self, ceilings: Ceilings) -> bool {
        self.price > ceilings.energy || ceilings.start < START_PRICE
    }

    fn lowered(&self, ceilings: Ceilings) -> Intermittent {
        Intermittent {
            price: self.price.min(ceilings.energy),
            ..*self
        }
    }

    ghost rules = { IntermittentLaws.rules };

    ghost capping = { IntermittentLaws.capping };
}
