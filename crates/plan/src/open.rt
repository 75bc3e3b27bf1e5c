// A plan that is open: messages can be entered, altered and struck.
ghost use Rattle.std.specs.Prelude.{◌≡◌, ◌≤◌, true, false, length, vec_capacity};
ghost use Rattle.std.proofs.Props.{props};
ghost use Rattle.plan.specs.Messages.{records_of};
ghost use Rattle.plan.specs.Open.{apart, too_long};
ghost use Rattle.plan.specs.Schedule.{Works};

use crate::record::Message;
use crate::schedule::Schedule;

pub mod calls;
pub mod changes;
pub mod traffic;

#[derive(Drop)]
pub struct OpenPlan {
    messages: Vec<Message>,
    schedule: Schedule,
    ghost few: { length (records_of messages.items) ≤ 64 },
    ghost distinct: { apart (records_of messages.items) ≡ true },
    ghost short: { too_long (records_of messages.items) ≡ false },
    ghost room: { 64 ≤ vec_capacity messages },
    ghost works: { Works (records_of messages.items) schedule } by { Prim.hlevel props },
}
