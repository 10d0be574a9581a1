// What a job or an index comes to: the tallies where it is done, a refusal where it is not, and either as the numbers that cross the C boundary.
#![tactic(auto)]

ghost use Rattle.std.specs.Prelude.{◌≡◌};
ghost use Rattle.answers.specs.Outcomes.{tallied, refusal_of, answer_of};
ghost use Rattle.answers.specs.Numbers.{answer_numbers};

pub use refusal::{Refusal, Sequence};
use rules::Answer;

mod refusal;

// The tallies of what is done.
#[derive(Clone, Copy, Debug, PartialEq, Eq)]
pub struct Tallies {
    // entries listed; of the stopped sweep, records held; of an index, its places
    pub listed: usize,
    // M, the number of matches
    pub matches: usize,
    // W, the most matches in any run of rows i - b to i
    pub widest: usize,
    // the link total
    pub links: u64,
}

impl From<Tallies> for Answer {
    ghost from_gives = { λ tallies x. x ≡ tallied tallies };

    // Number 0 refuses nothing.
    fn from(tallies: Tallies) -> Answer {
        Answer {
            number: 0,
            sequence: 0,
            detail: 0,
            listed: tallies.listed as u64,
            matches: tallies.matches as u64,
            widest: tallies.widest as u64,
            links: tallies.links,
        }
    }
}

impl From<Refusal> for Answer {
    ghost from_gives = { λ refusal x. x ≡ refusal_of refusal };

    // On refusal all four tallies are 0.
    fn from(refusal: Refusal) -> Answer {
        let (number, sequence, detail) = refusal.numbers();
        Answer {
            number,
            sequence,
            detail,
            listed: 0,
            matches: 0,
            widest: 0,
            links: 0,
        }
    }
}

// The answer that a job or an index gives.
pub fn answer(outcome: Result<Tallies, Refusal>) -> Answer
    ensures { result ≡ answer_of outcome }
{
    outcome.map_or_else(Answer::from, Answer::from)
}

// The answer as the seven numbers of the paper, in its order.
pub fn put_answer(answer: &mut [u64; 7], x: Answer)
    ensures { answer.new ≡ answer_numbers x }
{
    *answer = [
        x.number, x.sequence, x.detail, x.listed, x.matches, x.widest, x.links,
    ];
}
