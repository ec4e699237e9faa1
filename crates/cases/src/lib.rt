// Worked cases, and laws of the cost: what the definitions give, so that a reader can check them.
#![tactic(auto)]

ghost use Rattle.cases.specs.Worked.{WorkedCases};
ghost use Rattle.curves.specs.Costs.{CostLaws};
ghost use Rattle.curves.specs.CurveLaws.{CurveLaws};

// The cases hold; there is nothing to run.
pub fn worked_cases()
    ensures { WorkedCases }
{}

// What the cost of an output comes to, for every list of steps that rise.
#[tactic(auto, using(curves::proofs::Costs::cost_laws))]
pub fn cost_laws()
    ensures { CostLaws }
{}

// What the tests and the capping of steps say of each step.
#[tactic(auto, using(curves::proofs::Places::curve_laws))]
pub fn curve_laws()
    ensures { CurveLaws }
{}
