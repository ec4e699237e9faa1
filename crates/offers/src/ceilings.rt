// The highest ceiling for a start price that a round can bring, and the highest start price of a body, in centavos.
pub const MAX_START: i64 = 1_000_000_000;

// What a round holds a body against in an hour: a ceiling for its prices, in centavos per MWh, and one for its start price, in centavos.
#[derive(Clone, Copy)]
pub struct Ceilings {
    pub energy: i64,
    pub start: i64,
}
