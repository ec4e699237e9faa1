// What the trials ask of bodies of either kind.
use offers::ceilings::Ceilings;
use offers::kind::Kind;
use offers::terms::Terms;
use std::process::Abort;

// Whether a body is admitted to 1,000 kW and prices from -100 to 100.
pub(crate) fn admitted<K: Kind>(body: K) -> bool {
    body.admissible(Terms {
        maximum: 1_000,
        floor: -100,
        cap: 100,
    })
}

// The body has the cost at each output.
pub(crate) fn costs<K: Kind>(rt: &impl Abort, body: &K, table: &[(i64, i64)]) {
    for &(output, expected) in table {
        assert_eq!(rt; body.cost(output), expected, "at {output} kW");
    }
}

// Whether the body exceeds each energy and start ceiling.
pub(crate) fn exceeds<K: Kind>(rt: &impl Abort, body: &K, table: &[(i64, i64, bool)]) {
    for &(energy, start, expected) in table {
        assert_eq!(rt;
            body.exceeds(held_to(energy, start)),
            expected,
            "{energy}, {start}"
        );
    }
}

pub(crate) fn held_to(energy: i64, start: i64) -> Ceilings {
    Ceilings { energy, start }
}
