use crate::filing::Filing;

// A write to a ledger: a filing as it then stands, with its unit and its place in the unit's list.
#[derive(Clone, Copy, Debug, PartialEq, Eq)]
pub struct Write<B> {
    pub unit: usize,
    pub place: usize,
    pub filing: Filing<B>,
}
