use ledgers::filing::Submission;

// An add or a mark, with what it brings.
#[derive(Clone, Copy, Debug, PartialEq, Eq)]
pub enum Entry<B> {
    Add {
        unit: i64,
        submission: Submission<B>,
    },
    Mark {
        unit: i64,
        place: i64,
        verdict: i64,
        round: i64,
    },
}
