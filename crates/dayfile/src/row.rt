use crate::call::RoundKind;

// A row of a day file: what it asks, with its numbers.
#[derive(Clone, Copy, Debug, PartialEq, Eq)]
pub enum Row {
    Register {
        unit: i64,
        kw: i64,
        price: i64,
    },
    File {
        unit: i64,
        minute: i64,
        from: i64,
        to: i64,
        kw: i64,
        price: i64,
    },
    Round {
        kind: RoundKind,
        unit: i64,
        minute: i64,
        price: i64,
    },
    InForce {
        unit: i64,
        hour: i64,
    },
}
