ghost use Rattle.std.specs.Prelude.{◌≡◌, true, pos, ◌≤ℤ◌, Decides};
ghost use Rattle.offers.specs.Bodies.{Capping, Rules, possible};
ghost use Rattle.offers.specs.declared.terms.Terms.{Terms};
ghost use Rattle.offers.specs.Meaning.{Meaning};

use crate::ceilings::Ceilings;
use crate::kind::Kind;
use crate::terms::Terms;

// A body that counts only where some book admits it. Its figures are what it says by itself; as a kind of offer it means the same, and is idle where no book admits it.
pub trait Body: Copy {
    ghost figures: { Meaning Self };

    // The rules of admission.
    ghost Keeps: { Self → Terms → Type 0 };

    // Whether the body fits these terms.
    fn fits(&self, terms: Terms) -> bool
        ensures { result ≡ figures.admits self.now terms };

    // The highest output that it names, in kW.
    fn limit(&self) -> i64
        ensures { result ≡ figures.top self.now };

    // The cost of one hour at an output in kW, in thousandths of a centavo: of a body that some book admits, at an output from 0 to its limit. Elsewhere it is any number.
    fn hour_cost(&self, output: i64) -> i64
        ensures { possible figures self.now ≡ true → pos 0 ≤ℤ output → output ≤ℤ figures.top self.now → result ≡ figures.cost self.now output };

    // The price of a start that it names, in centavos.
    fn start(&self) -> i64
        ensures { result ≡ figures.start self.now };

    // Whether some price that it names is above its ceiling.
    fn is_above(&self, ceilings: Ceilings) -> bool
        ensures { result ≡ figures.exceeds self.now ceilings };

    // The body with each price the lesser of itself and its ceiling.
    fn lowered(&self, ceilings: Ceilings) -> Self
        ensures { result ≡ figures.capped self.now ceilings };

    // Whether some book admits the body.
    fn is_possible(&self) -> bool
        ensures { result ≡ possible figures self.now }
    {
        self.fits(Terms::widest())
    }

    ghost rules: { Rules figures Keeps };

    ghost capping: { Capping figures };

    // Whether the body keeps every rule of admission.
    final fn keeps_rules(&self, terms: Terms) -> bool
        ensures kept { Decides result (Keeps self.now terms) }
        ensures rules { Rules figures Keeps }
    {
        self.admissible(terms)
    }
}

impl<B: Body> Kind for B {
    ghost use Rattle.offers.specs.Bodies.{priced};
    ghost use Rattle.offers.specs.BodyLaws.{lawful as priced_lawful};

    ghost meaning = { priced B.figures };

    ghost lawful = { priced_lawful B.figures B.Keeps B.rules B.capping };

    fn admissible(&self, terms: Terms) -> bool {
        self.fits(terms)
    }

    fn top(&self) -> i64 {
        if self.is_possible() { self.limit() } else { 0 }
    }

    fn cost(&self, output: i64) -> i64 {
        if self.is_possible() && (0..=self.limit()).contains(&output) {
            self.hour_cost(output)
        } else {
            0
        }
    }

    fn start_price(&self) -> i64 {
        if self.is_possible() { self.start() } else { 0 }
    }

    fn exceeds(&self, ceilings: Ceilings) -> bool {
        self.is_possible() && self.is_above(ceilings)
    }

    fn capped(&self, ceilings: Ceilings) -> B {
        if self.is_possible() {
            self.lowered(ceilings)
        } else {
            *self
        }
    }
}
