use crate::verdict::Verdict;

// An offer as it came in: when it was received, for which hours, and what was offered.
#[derive(Clone, Copy, Debug, PartialEq, Eq)]
pub struct Submission<B> {
    pub minute: i64,
    pub first: i64,
    pub last: i64,
    pub body: B,
}

// A submission of a unit, and what its round said of it.
#[derive(Clone, Copy, Debug, PartialEq, Eq)]
pub struct Filing<B> {
    pub submission: Submission<B>,
    pub verdict: Verdict,
    pub round: i64,
}

pub mod methods;
