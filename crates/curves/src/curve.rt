ghost use Rattle.std.specs.Prelude.{◌≡◌};
ghost use Rattle.curves.specs.Curve.{capped_steps, part_cost, cost_at};
ghost use Rattle.curves.specs.Fits.{PartFits, CostFits};

use crate::steps::Step;

// Each price the lesser of itself and the ceiling.
pub(crate) fn cap_each(steps: &mut [Step], ceiling: i64)
    ensures { steps.new ≡ capped_steps ceiling steps.old }
{
    for s in steps.iter_mut() {
        s.price = s.price.min(ceiling);
    }
}

// The cost at an output: each step's part of it times the step's price.
pub(crate) fn cost_at(steps: &[Step], output: i64) -> i64
    requires { CostFits steps.now output }
    ensures { result ≡ cost_at output steps.now }
{
    let mut sum = 0;
    let mut lower = 0;
    // A fold would carry both as a pair.
    for s in steps {
        sum += part_cost(s, lower, output);
        lower = s.upper;
    }
    sum
}

// What a step above `lower` kW adds to the cost at an output: its part of the output times its price.
fn part_cost(step: &Step, lower: i64, output: i64) -> i64
    requires { PartFits step.now lower output }
    ensures { result ≡ part_cost output lower step.now }
{
    let part = output.min(step.upper) - output.min(lower);
    part * step.price
}
