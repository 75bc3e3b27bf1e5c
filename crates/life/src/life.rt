// What is asked of a plan in the course of its life, what it answers, and what it is then.
ghost use Rattle.std.specs.Prelude.{Some};
ghost use Rattle.life.specs.Text.{answer_told};

use bus::refusal::Refusal;
use plan::open::OpenPlan;
use plan::record::Record;
use settled::settled::SettledPlan;
use settled::settled::calls::Row;
use std::fmt;

#[derive(Clone, Copy, PartialEq, Eq, Debug)]
pub enum Call {
    Enter(Record),
    Alter(Record),
    Strike(u64),
    Settle,
    Reopen,
    Verdict(u64),
    Row(usize),
}

#[derive(Clone, Copy, PartialEq, Eq, Debug)]
pub enum Answer {
    // how many messages are held then
    Held(usize),
    Refused(Refusal),
    Settled,
    Open,
    Told(Row),
}

// Without a line feed.
impl fmt::Display for Answer {
    ghost output = { λ answer. Some (answer_told answer) };

    fn fmt<W: fmt::Write>(&self, f: &mut fmt::Formatter<W>) -> fmt::Result {
        match self {
            Answer::Held(count) => write!(f, "held {count}"),
            Answer::Refused(refusal) => write!(f, "refused {refusal}"),
            Answer::Settled => f.write_str("settled"),
            Answer::Open => f.write_str("open"),
            Answer::Told(row) => write!(f, "{row}"),
        }
    }
}

#[derive(Drop)]
pub enum Plan {
    Open(OpenPlan),
    Settled(SettledPlan),
}

// The answers to the calls in their order, the plan that the calls leave, and the place, counted from 0, of the first
// call that came where it may not. That call and those after it were not worked.
#[derive(Drop)]
pub struct Life {
    pub answers: Vec<Answer>,
    pub plan: Plan,
    pub misplaced: Option<usize>,
}
