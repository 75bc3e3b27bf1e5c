// Settling, reading and reopening a plan.
ghost use Rattle.std.specs.Prelude.{◌≡◌, Some, None, IfOk};
ghost use Rattle.plan.specs.Book.{Step, Settle, Reopen, open_book, settled_book};
ghost use Rattle.plan.specs.Held.{held};
ghost use Rattle.plan.specs.Streams.{traffic_of};
ghost use Rattle.settled.specs.Figures.{Among};
ghost use Rattle.settled.specs.Holding.{holding, FiguresHold, VerdictHolds, VerdictAsked, RowAsked};
ghost use Rattle.settled.specs.Text.{figure_text};
ghost use Rattle.verdict.specs.Judged.{VerdictIs};

use super::SettledPlan;
use arrayvec::ArrayVec;
use bus::refusal::Refusal;
use plan::open::OpenPlan;
use plan::record::{Message, Record};
use std::fmt;
use verdict::{Verdict, judge};

// A message's identifier and the verdict on it, none where it is unsettled. Default fills the places that no message has.
#[derive(Clone, Copy, PartialEq, Eq, Debug, Default)]
pub struct Row {
    pub identifier: u64,
    pub verdict: Option<Verdict>,
}

// Without a line feed.
impl fmt::Display for Row {
    ghost output = { λ row. Some (figure_text row.identifier row.verdict) };

    fn fmt<W: fmt::Write>(&self, f: &mut fmt::Formatter<W>) -> fmt::Result {
        let identifier = self.identifier;
        match self.verdict {
            Some(Verdict { bound, judgement }) => write!(
                f,
                "(bound {identifier} {bound} {judgement})"
            ),
            None => write!(f, "(bound {identifier} unsettled)"),
        }
    }
}

// The row of a message that the plan holds.
fn work_out(plan: &OpenPlan, message: &Message) -> Row
    requires { Among (held plan.now) message.now.record }
    ensures named { result.identifier ≡ message.now.record.identifier }
    ensures verdict { VerdictIs (traffic_of (held plan.now)) message.now.record.identifier message.now.record.due result.verdict }
{
    let Record {
        identifier,
        due,
        ..
    } = message.record;
    let judged = judge(plan, identifier as u32, due as u32);
    Row {
        identifier,
        verdict: judged.unwrap(),
    }
}

// Works every message out.
pub fn settle(plan: OpenPlan) -> SettledPlan
    ensures holds { holding result ≡ held plan }
    ensures figures { FiguresHold result }
    ensures step { Step (open_book (held plan)) Settle None (settled_book (holding result)) }
{
    let mut rows = ArrayVec::new();
    for message in plan.messages() {
        rows.push(work_out(&plan, message));
    }
    SettledPlan { plan, rows }
}

impl SettledPlan {
    // The open plan again, with its messages and without the figures.
    pub fn reopen(self) -> OpenPlan
        ensures holds { held result ≡ holding self }
        ensures step { Step (settled_book (holding self)) Reopen None (open_book (held result)) }
    {
        self.plan
    }

    // The verdict on the message with the identifier, none where it is unsettled.
    pub fn verdict(&self, identifier: u64) -> Result<Option<Verdict>, Refusal>
        ensures asked { VerdictAsked (holding self.now) identifier result }
        ensures delivered { IfOk result (λ v. VerdictHolds (holding self.now) identifier v) }
    {
        let row = self
            .rows
            .iter()
            .find(|row| row.identifier == identifier)
            .ok_or(Refusal::NotHeld)?;
        Ok(row.verdict)
    }

    // The message at a position, counted from 0, with its verdict.
    pub fn row(&self, position: usize) -> Result<Row, Refusal>
        ensures asked { RowAsked (holding self.now) position result }
        ensures delivered { IfOk result (λ row. VerdictHolds (holding self.now) row.identifier row.verdict) }
    {
        self.rows.get(position).copied().ok_or(Refusal::Question)
    }
}
