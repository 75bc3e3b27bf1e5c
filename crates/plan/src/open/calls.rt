// What can be done with an open plan.
ghost use Rattle.std.specs.Prelude.{◌≡◌, [], ◌∷◌, ◌++◌, length, IfOk, Some};
ghost use Rattle.bus.specs.Refused.{answer, Done};
ghost use Rattle.plan.specs.Book.{Step, Enter, open_book, first_book};
ghost use Rattle.plan.specs.Cycle.{cycle_of, LeastCycles};
ghost use Rattle.plan.specs.Held.{held, MessageAsked, PositionAsked};
ghost use Rattle.plan.specs.Messages.{records_of};
ghost use Rattle.plan.specs.Open.{enter_rules};

use super::OpenPlan;
use crate::record::{Message, Record};
use crate::schedule::Schedule;
use bus::refusal::Refusal;
use std::alloc::{AllocError, Global};

const MOST_RECORDS: usize = 64;

impl OpenPlan {
    // A plan without messages. It takes all the memory that it will need.
    pub fn new(heap: Global) -> Result<OpenPlan, AllocError>
        ensures empty { IfOk result (λ p. held p ≡ []) }
        ensures first { IfOk result (λ p. open_book (held p) ≡ first_book) }
    {
        let messages = Vec::with_capacity(heap, MOST_RECORDS)?;
        let schedule = Schedule::new(heap)?;
        Ok(OpenPlan { messages, schedule })
    }

    // How many messages are held.
    pub fn len(&self) -> usize
        ensures { result ≡ length (held self.now) }
    {
        self.messages.len()
    }

    // The messages held, in the order in which they were entered.
    pub fn messages(&self) -> &[Message]
        ensures { records_of result.now ≡ held self.now }
    {
        &self.messages
    }

    // The message at a position, counted from 0 in the order in which they were entered.
    pub fn message(&self, position: usize) -> Option<Record>
        ensures { MessageAsked (held self.now) position result }
    {
        self.messages.get(position).map(|message| message.record)
    }

    // Where the message with the identifier stands.
    pub fn position(&self, identifier: u64) -> Option<usize>
        ensures { PositionAsked identifier (held self.now) result }
    {
        self.messages
            .iter()
            .position(|message| message.record.identifier == identifier)
    }

    // The cycle that the message's node will have, unless the message is refused.
    fn judge(&self, message: &Message) -> Result<u32, Refusal>
        ensures { result ≡ answer (enter_rules message.now.record (held self.now)) (cycle_of message.now.record.node (held self.now ++ message.now.record ∷ [])) }
    {
        if self.position(message.record.identifier).is_some() {
            return Err(Refusal::Held);
        }
        if self.len() >= MOST_RECORDS {
            return Err(Refusal::Full);
        }
        message
            .cycle_with(self.schedule.cycles[message.node() as usize])
            .ok_or(Refusal::Cycle)
    }

    // Takes a message in, after all others, and says how many are held then.
    pub fn enter(&mut self, message: Record) -> Result<usize, Refusal>
        ensures entered { Done (enter_rules message (held self.old)) (held self.old) (held self.old ++ message ∷ []) result (held self.new) }
        ensures step { Step (open_book (held self.old)) (Enter message) (Some result) (open_book (held self.new)) }
        ensures cycles { LeastCycles }
    {
        let checked = message.check()?;
        let cycle = self.judge(&checked)?;
        self.messages.push_reserved(checked);
        self.schedule.add(&checked, cycle);
        Ok(self.len())
    }
}
