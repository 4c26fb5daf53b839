// The line of a slack answer.
use refusals::{Refusal, number_of};
use slack_calls::{Slacks, slacks_in};
use std::fmt;

// The number of an answer and the 32 entries: the ticks and the remainder of each test, zeros where it is refused.
#[derive(Clone, Copy)]
pub struct Slack(pub Result<Slacks, Refusal>);

impl fmt::Display for Slack {
    fn fmt<W: fmt::Write>(&self, f: &mut fmt::Formatter<W>) -> fmt::Result {
        let Slack(slack) = *self;
        let number = number_of(&slack);
        write!(f, "{number}")?;
        let slacks = slacks_in(slack);
        for (ticks, remainder) in slacks.ticks.iter().zip(slacks.remainders.iter()) {
            write!(f, " {ticks} {remainder}")?;
        }
        Ok(())
    }
}
