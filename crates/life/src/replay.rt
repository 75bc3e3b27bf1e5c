// Works the calls of a plan's life.
ghost use Rattle.std.specs.Prelude.{◌≡◌, IfOk};
ghost use Rattle.plan.specs.Book.{open_book, settled_book};
ghost use Rattle.plan.specs.Held.{held};
ghost use Rattle.settled.specs.Holding.{holding};
ghost use Rattle.life.specs.Life.{counted, book_of, Worked, Lived};

use crate::life::{Answer, Call, Life, Plan};
use bus::refusal::Refusal;
use plan::open::OpenPlan;
use settled::settled::SettledPlan;
use settled::settled::calls::{Row, settle};
use std::alloc::{AllocError, Global};

fn counted(outcome: Result<usize, Refusal>) -> Answer
    ensures { result ≡ counted outcome }
{
    outcome.map_or_else(Answer::Refused, Answer::Held)
}

fn work_open(mut plan: OpenPlan, call: Call) -> (Plan, Option<Answer>)
    ensures { Worked (open_book (held plan)) call result.1 (book_of result.0) }
{
    let answer = match call {
        Call::Enter(message) => counted(plan.enter(message)),
        Call::Alter(message) => counted(plan.alter(message)),
        Call::Strike(identifier) => counted(plan.strike(identifier)),
        Call::Settle => return (Plan::Settled(settle(plan)), Some(Answer::Settled)),
        Call::Reopen | Call::Verdict(_) | Call::Row(_) => return (Plan::Open(plan), None),
    };
    (Plan::Open(plan), Some(answer))
}

fn work_settled(plan: SettledPlan, call: Call) -> (Plan, Option<Answer>)
    ensures { Worked (settled_book (holding plan)) call result.1 (book_of result.0) }
{
    let answer = match call {
        Call::Reopen => return (Plan::Open(plan.reopen()), Some(Answer::Open)),
        Call::Verdict(identifier) => plan.verdict(identifier).map_or_else(
            Answer::Refused,
            |verdict| Answer::Told(Row {
                identifier,
                verdict,
            }),
        ),
        Call::Row(position) => plan
            .row(position)
            .map_or_else(Answer::Refused, Answer::Told),
        Call::Enter(_) | Call::Alter(_) | Call::Strike(_) | Call::Settle => return (
            Plan::Settled(plan),
            None,
        ),
    };
    (Plan::Settled(plan), Some(answer))
}

impl Plan {
    // Works one call, and gives the plan that it leaves with the answer; no answer where the call may not come.
    pub fn work(self, call: Call) -> (Plan, Option<Answer>)
        ensures { Worked (book_of self) call result.1 (book_of result.0) }
    {
        match self {
            Plan::Open(plan) => work_open(plan, call),
            Plan::Settled(plan) => work_settled(plan, call),
        }
    }
}

// Works a list of calls from an empty plan on, up to the first that comes where it may not.
pub fn replay(heap: Global, calls: &[Call]) -> Result<Life, AllocError>
    ensures { IfOk result (λ life. Lived calls.now life) }
{
    let mut plan = Plan::Open(OpenPlan::new(heap)?);
    let mut answers = Vec::new(heap);
    for (place, &call) in calls.iter().enumerate() {
        let (left, told) = plan.work(call);
        plan = left;
        let Some(answer) = told else {
            return Ok(Life {
                answers,
                plan,
                misplaced: Some(place),
            });
        };
        answers.push(answer)?;
    }
    Ok(Life {
        answers,
        plan,
        misplaced: None,
    })
}
