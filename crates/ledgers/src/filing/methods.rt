ghost use Rattle.std.specs.Prelude.{◌≡◌};
ghost use Rattle.ledgers.specs.Held.{head_of};
ghost use Rattle.ledgers.specs.Writes.{waiting, judged, is_round};

use crate::filing::{Filing, Submission};
use crate::verdict::Verdict;

impl<B: Copy> Filing<B> {
    // A new filing: waiting, of round 0.
    pub fn waiting(submission: Submission<B>) -> Filing<B>
        ensures { result ≡ waiting submission }
    {
        Filing {
            submission,
            verdict: Verdict::Waiting,
            round: 0,
        }
    }

    // All of it but its body.
    pub fn head(self) -> Filing<()>
        ensures { result ≡ head_of self }
    {
        let Submission {
            minute,
            first,
            last,
            ..
        } = self.submission;
        Filing {
            submission: Submission {
                minute,
                first,
                last,
                body: (),
            },
            verdict: self.verdict,
            round: self.round,
        }
    }

    // The filing with the verdict of this number, from 1 to 3, and this round, from 0 to 6; none for other numbers, or where it does not wait.
    pub fn judged(self, verdict: i64, round: i64) -> Option<Filing<B>>
        ensures { result ≡ judged self verdict round }
    {
        if !self.verdict.is_waiting() || !is_round(round) {
            return None;
        }
        let verdict = Verdict::of_round(verdict)?;
        Some(Filing {
            verdict,
            round,
            ..self
        })
    }
}

// A unit has at most six rounds, and the default filing is of round 0.
fn is_round(round: i64) -> bool
    ensures { result ≡ is_round round }
{
    (0..=6).contains(&round)
}
