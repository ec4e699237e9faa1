ghost use Rattle.std.specs.Prelude.{◌≡◌};
ghost use Rattle.offers.specs.Laws.{Lawful};
ghost use Rattle.offers.specs.Meaning.{Meaning};

use crate::ceilings::Ceilings;
use crate::terms::Terms;

// A kind of offer. Code above it is proved once, for every kind, against the meaning and its laws. A type with the trait `Body` is one.
pub trait Kind: Copy {
    ghost meaning: { Meaning Self };

    // Whether the body may be filed on these terms.
    fn admissible(&self, terms: Terms) -> bool
        ensures { result ≡ meaning.admits self.now terms };

    // The highest output that is offered, in kW.
    fn top(&self) -> i64
        ensures { result ≡ meaning.top self.now };

    // The offered cost of one hour at an output in kW, in thousandths of a centavo.
    fn cost(&self, output: i64) -> i64
        ensures { result ≡ meaning.cost self.now output };

    // The price of a start, in centavos.
    fn start_price(&self) -> i64
        ensures { result ≡ meaning.start self.now };

    // Whether some price is above its ceiling.
    fn exceeds(&self, ceilings: Ceilings) -> bool
        ensures { result ≡ meaning.exceeds self.now ceilings };

    // The body with each price the lesser of itself and its ceiling.
    fn capped(&self, ceilings: Ceilings) -> Self
        ensures { result ≡ meaning.capped self.now ceilings };

    ghost lawful: { Lawful meaning };
}
