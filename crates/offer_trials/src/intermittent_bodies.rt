use crate::asked::{self, admitted, held_to};
use intermittent::Intermittent;
use offers::body::Body;
use offers::kind::Kind;
use offers::terms::Terms;

#[test]
fn admission(rt: HostRuntime) {
    let table = [
        (-1, 0, false),
        (0, 0, true),
        (1_000, 0, true),
        (1_001, 0, false),
        (5, -101, false),
        (5, -100, true),
        (5, 100, true),
        (5, 101, false),
        (i64::MIN, i64::MIN, false),
        (i64::MAX, i64::MAX, false),
    ];
    for (forecast, price, expected) in table {
        let body = Intermittent { forecast, price };
        assert_eq!(rt; admitted(body), expected, "{body:?}");
    }
}

#[test]
fn costs(rt: HostRuntime) {
    let body = Intermittent {
        forecast: 200,
        price: -7,
    };
    assert_eq!(rt; body.top(), 200);
    assert_eq!(rt; body.start_price(), 0);
    let table = [(-1, 0), (0, 0), (1, -7), (200, -1_400), (201, 0)];
    asked::costs(&rt, &body, &table);
}

// The dearest and the cheapest hour that a book can have.
#[test]
fn extreme_costs(rt: HostRuntime) {
    let table = [
        (10_000_000, 20_000_000_000_000),
        (-10_000_000, -20_000_000_000_000),
    ];
    for (price, expected) in table {
        let body = Intermittent {
            forecast: 2_000_000,
            price,
        };
        assert_eq!(rt; body.cost(2_000_000), expected, "{body:?}");
    }
}

// An hour's cost may be asked of any figures, and is told where some book admits the body.
#[test]
fn hour_costs(rt: HostRuntime) {
    for figure in [i64::MIN, -1, 0, i64::MAX] {
        let body = Intermittent {
            forecast: figure,
            price: figure,
        };
        let _any = body.hour_cost(i64::MAX);
    }
    let body = Intermittent {
        forecast: 200,
        price: -7,
    };
    assert_eq!(rt; body.hour_cost(200), -1_400);
}

#[test]
fn no_book_admits(rt: HostRuntime) {
    let ceilings = held_to(0, -1);
    let table = [
        (2_000_001, 90, 1),
        (9, 10_000_001, 9),
        (9, -10_000_001, 9),
        (-1, 90, 1),
    ];
    for (forecast, price, output) in table {
        let body = Intermittent { forecast, price };
        assert_eq!(rt; body.top(), 0, "{body:?}");
        assert_eq!(rt; body.cost(output), 0, "{body:?}");
        assert!(rt; !body.exceeds(ceilings), "{body:?}");
        assert_eq!(rt; body.capped(ceilings), body);
    }
}

#[test]
fn rules_kept(rt: HostRuntime) {
    let terms = Terms {
        maximum: 9,
        floor: 5,
        cap: 7,
    };
    for (price, expected) in [(7, true), (8, false)] {
        let body = Intermittent { forecast: 9, price };
        assert_eq!(rt; body.keeps_rules(terms), expected, "{body:?}");
    }
}

#[test]
fn ceilings(rt: HostRuntime) {
    let body = Intermittent {
        forecast: 200,
        price: 90,
    };
    asked::exceeds(&rt, &body, &[(89, 0, true), (90, 0, false), (90, -1, true)]);
    for (energy, price) in [(89, 89), (91, 90)] {
        let lower = Intermittent { price, ..body };
        assert_eq!(rt; body.capped(held_to(energy, 0)), lower);
    }
}
