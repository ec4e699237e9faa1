use crate::asked::{self, admitted, held_to};
use curves::steps::{Step, Steps};
use offers::body::Body;
use offers::kind::Kind;
use offers::terms::Terms;
use std::test::Fail;
use thermal::Thermal;

fn step(upper: i64, price: i64) -> Step {
    Step { upper, price }
}

// A body of 250 kW with these steps.
fn with_steps(steps: &[Step]) -> Result<Thermal, Fail> {
    let steps = Steps::of(steps).ok_or("too many steps")?;
    Ok(Thermal {
        status: 1,
        emergency_min: 10,
        economic_min: 20,
        economic_max: 250,
        emergency_max: 300,
        start_price: 5,
        steps,
    })
}

fn usual() -> Result<Thermal, Fail> {
    with_steps(&[step(100, 50), step(250, 70)])
}

#[test]
fn status(rt: HostRuntime) -> Result<(), Fail> {
    let usual = usual()?;
    for (status, expected) in [(-1, false), (0, true), (2, true), (3, false)] {
        let body = Thermal { status, ..usual };
        assert_eq!(rt; admitted(body), expected, "status {status}");
    }
    Ok(())
}

#[test]
fn lower_limits(rt: HostRuntime) -> Result<(), Fail> {
    let usual = usual()?;
    let table = [
        (-1, 20, false),
        (0, 20, true),
        (20, 20, true),
        (21, 20, false),
        (0, -1, false),
        (0, 0, true),
        (0, 250, true),
        (0, 251, false),
    ];
    for (emergency_min, economic_min, expected) in table {
        let body = Thermal {
            emergency_min,
            economic_min,
            ..usual
        };
        assert_eq!(rt;
            admitted(body),
            expected,
            "from {emergency_min} and {economic_min} kW"
        );
    }
    Ok(())
}

#[test]
fn upper_limits(rt: HostRuntime) -> Result<(), Fail> {
    let usual = usual()?;
    let table = [
        (250, 249, false),
        (250, 250, true),
        (250, 1_000, true),
        (250, 1_001, false),
        (249, 300, false),
        (251, 300, false),
    ];
    for (economic_max, emergency_max, expected) in table {
        let body = Thermal {
            economic_max,
            emergency_max,
            ..usual
        };
        assert_eq!(rt;
            admitted(body),
            expected,
            "up to {economic_max} and {emergency_max} kW"
        );
    }
    Ok(())
}

#[test]
fn start_prices(rt: HostRuntime) -> Result<(), Fail> {
    let usual = usual()?;
    let table = [
        (-1, false),
        (0, true),
        (1_000_000_000, true),
        (1_000_000_001, false),
    ];
    for (start_price, expected) in table {
        let body = Thermal {
            start_price,
            ..usual
        };
        assert_eq!(rt; admitted(body), expected, "{start_price} a start");
    }
    Ok(())
}

#[test]
fn step_counts(rt: HostRuntime) -> Result<(), Fail> {
    let s = step(1, 0);
    assert!(rt; !admitted(with_steps(&[])?));
    assert!(rt; admitted(with_steps(&[step(250, 0)])?));
    let eight = with_steps(&[
        s,
        step(2, 0),
        step(3, 0),
        step(4, 0),
        step(5, 0),
        step(6, 0),
        step(7, 0),
        step(250, 0),
    ])?;
    assert!(rt; admitted(eight));
    assert!(rt; Steps::of(&[s, s, s, s, s, s, s, s, s]).is_none());
    Ok(())
}

#[test]
fn step_rules(rt: HostRuntime) -> Result<(), Fail> {
    let table = [
        (step(1, 0), step(250, 0), true),
        (step(0, 0), step(250, 0), false),
        (step(250, 0), step(250, 0), false),
        (step(250, 0), step(249, 0), false),
        (step(100, 0), step(249, 0), false),
        (step(100, 0), step(251, 0), false),
        (step(100, 7), step(250, 7), true),
        (step(100, 7), step(250, 6), false),
        (step(100, -100), step(250, 100), true),
        (step(100, -101), step(250, 100), false),
        (step(100, -100), step(250, 101), false),
    ];
    for (first, last, expected) in table {
        assert_eq!(rt; admitted(with_steps(&[first, last])?), expected);
    }
    Ok(())
}

#[test]
fn costs(rt: HostRuntime) -> Result<(), Fail> {
    let body = with_steps(&[step(100, 50_000), step(250, 70_000)])?;
    assert_eq!(rt; body.top(), 250);
    let table = [
        (-1, 0),
        (0, 0),
        (100, 5_000_000),
        (180, 10_600_000),
        (250, 15_500_000),
        (251, 0),
    ];
    asked::costs(&rt, &body, &table);
    assert_eq!(rt; body.start_price(), 5);
    let capped = body.capped(held_to(60_000, 4));
    assert_eq!(rt; capped.cost(180), 9_800_000);
    assert_eq!(rt; capped.start_price(), 4);
    assert_eq!(rt; capped.top(), 250);
    Ok(())
}

#[test]
fn ceilings(rt: HostRuntime) -> Result<(), Fail> {
    let body = usual()?;
    asked::exceeds(&rt, &body, &[(70, 5, false), (69, 5, true), (70, 4, true)]);
    for (energy, expected) in [(70, body.cost(250)), (60, 14_000), (40, 10_000)] {
        assert_eq!(rt;
            body.capped(held_to(energy, 5)).cost(250),
            expected,
            "{energy}"
        );
    }
    Ok(())
}

#[test]
fn no_book_admits(rt: HostRuntime) -> Result<(), Fail> {
    let body = Thermal {
        status: 9,
        ..usual()?
    };
    let ceilings = held_to(0, 0);
    assert_eq!(rt; body.top(), 0);
    assert_eq!(rt; body.cost(100), 0);
    assert_eq!(rt; body.start_price(), 0);
    assert!(rt; !body.exceeds(ceilings));
    assert_eq!(rt; body.capped(ceilings).start_price, 5);
    assert!(rt; body.capped(ceilings).steps.is_above(69));
    Ok(())
}

fn is_idle(body: Thermal) -> bool {
    let ceilings = held_to(-10_000_000, 0);
    body.top() == 0 && body.cost(100) == 0 && body.start_price() == 0 && !body.exceeds(ceilings)
}

#[test]
fn limits_of_any_book(rt: HostRuntime) -> Result<(), Fail> {
    let usual = usual()?;
    let limits = [
        (2_000_000, 5, false),
        (2_000_001, 5, true),
        (300, 1_000_000_000, false),
        (300, 1_000_000_001, true),
        (300, -1, true),
    ];
    for (emergency_max, start_price, expected) in limits {
        let body = Thermal {
            emergency_max,
            start_price,
            ..usual
        };
        assert_eq!(rt;
            is_idle(body),
            expected,
            "{emergency_max} kW, {start_price} a start"
        );
    }
    let prices = [
        (10_000_000, false),
        (10_000_001, true),
        (-10_000_000, false),
        (-10_000_001, true),
    ];
    for (price, expected) in prices {
        assert_eq!(rt;
            is_idle(with_steps(&[step(250, price)])?),
            expected,
            "{price}"
        );
    }
    assert!(rt; is_idle(with_steps(&[])?));
    Ok(())
}

// The dearest and the cheapest hour that a book can have.
#[test]
fn extreme_costs(rt: HostRuntime) -> Result<(), Fail> {
    let body = Thermal {
        economic_max: 2_000_000,
        emergency_max: 2_000_000,
        ..with_steps(&[step(2_000_000, 10_000_000)])?
    };
    let table = [
        (2_000_000, 20_000_000_000_000),
        (i64::MIN, 0),
        (i64::MAX, 0),
    ];
    asked::costs(&rt, &body, &table);
    let low = body.capped(held_to(-10_000_000, 0));
    assert_eq!(rt; low.cost(2_000_000), -20_000_000_000_000);
    assert!(rt;
        is_idle(Thermal {
            economic_max: i64::MAX,
            ..body
        })
    );
    Ok(())
}

// A body of eight steps, the last at this upper kW and price.
fn with_eighth(upper: i64, price: i64) -> Result<Thermal, Fail> {
    with_steps(&[
        step(10, 1),
        step(20, 2),
        step(30, 3),
        step(40, 4),
        step(50, 5),
        step(60, 6),
        step(70, 7),
        step(upper, price),
    ])
}

#[test]
fn eighth_step(rt: HostRuntime) -> Result<(), Fail> {
    let table = [
        (250, 100, true),
        (250, 101, false),
        (250, 6, false),
        (70, 100, false),
    ];
    for (upper, price, expected) in table {
        assert_eq!(rt;
            admitted(with_eighth(upper, price)?),
            expected,
            "{upper} kW at {price}"
        );
    }
    let body = with_eighth(250, 100)?;
    assert!(rt; body.exceeds(held_to(99, 5)));
    assert!(rt; !body.exceeds(held_to(100, 5)));
    assert_eq!(rt; body.cost(250), 18_280);
    let capped = body.capped(held_to(7, 5));
    assert_eq!(rt; capped.cost(250), 1_540);
    assert!(rt; !capped.exceeds(held_to(7, 5)));
    Ok(())
}

#[test]
fn rules_kept(rt: HostRuntime) -> Result<(), Fail> {
    let terms = Terms {
        maximum: 300,
        floor: 50,
        cap: 70,
    };
    let usual = usual()?;
    for (emergency_max, expected) in [(300, true), (301, false)] {
        let body = Thermal {
            emergency_max,
            ..usual
        };
        assert_eq!(rt; body.keeps_rules(terms), expected, "{emergency_max} kW");
    }
    Ok(())
}
