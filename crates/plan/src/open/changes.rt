// Altering and striking a message of an open plan. What stands beside the messages is worked out again.
ghost use Rattle.std.specs.Prelude.{Some};
ghost use Rattle.bus.specs.Refused.{Done};
ghost use Rattle.plan.specs.Book.{Step, Alter, Strike, open_book};
ghost use Rattle.plan.specs.Held.{held};
ghost use Rattle.plan.specs.Open.{alter_rules, altered, strike_rules, struck};

use super::OpenPlan;
use crate::record::Record;
use bus::refusal::Refusal;

impl OpenPlan {
    // Puts a message in the place of the one with its identifier, and says how many are held.
    pub fn alter(&mut self, message: Record) -> Result<usize, Refusal>
        ensures done { Done (alter_rules message (held self.old)) (held self.old) (altered message (held self.old)) result (held self.new) }
        ensures step { Step (open_book (held self.old)) (Alter message) (Some result) (open_book (held self.new)) }
    {
        let checked = message.check()?;
        let at = self.position(message.identifier).ok_or(Refusal::NotHeld)?;
        let former = self.messages[at];
        self.messages[at] = checked;
        if let Err(refusal) = self.schedule.work_out(&self.messages) {
            self.messages[at] = former;
            return Err(refusal);
        }
        Ok(self.len())
    }

    // Takes the message with the identifier out, and says how many are held then.
    pub fn strike(&mut self, identifier: u64) -> Result<usize, Refusal>
        ensures done { Done (strike_rules identifier (held self.old)) (held self.old) (struck identifier (held self.old)) result (held self.new) }
        ensures step { Step (open_book (held self.old)) (Strike identifier) (Some result) (open_book (held self.new)) }
    {
        let at = self.position(identifier).ok_or(Refusal::NotHeld)?;
        let _ = self.messages.remove(at);
        self.schedule.work_out(&self.messages).unwrap();
        Ok(self.len())
    }
}
