// Up to 64 measured senders, which make a traffic.
ghost use Rattle.std.specs.Prelude.{◌≡◌, ◌<◌, ◌≤◌, [], ◌∷◌, ◌++◌, length, IfOk, vec_capacity};
ghost use Rattle.bus.specs.Asked.{Asked};
ghost use Rattle.bus.specs.Refused.{Done};
ghost use Rattle.sheet.specs.Sheet.{measured, sender_of, holds, note_rules, AllLawful, Apart};
ghost use Rattle.sheet.specs.Lawful.{measured_limits, measured_laws};

use crate::sender::{MOST_NODE, Sender};
use bus::frame::longest;
use bus::refusal::Refusal;
use bus::traffic::Traffic;
use std::alloc::{AllocError, Global};

const MOST_SENDERS: usize = 64;

const LAST_INSTANCE: u32 = 4_194_306;

// The longest window, with the reach, that a count is asked for.
const LAST_WINDOW: u32 = 20_971_520;

#[derive(Drop)]
pub struct Sheet {
    senders: Vec<Sender>,
    // the largest jitter held, or 0
    reach: u32,
    ghost room: { 64 ≤ vec_capacity senders },
    ghost few: { length senders.items ≤ 64 },
    ghost lawful: { AllLawful senders.items },
    ghost apart: { Apart senders.items },
    ghost largest: { reach ≡ (measured senders.items).reach },
}

impl Sheet {
    // A sheet that holds no sender. It takes all the memory that it will need.
    pub fn new(heap: Global) -> Result<Sheet, AllocError>
        ensures { IfOk result (λ s. s.senders.items ≡ []) }
    {
        let senders = Vec::with_capacity(heap, MOST_SENDERS)?;
        Ok(Sheet { senders, reach: 0 })
    }

    // Adds a sender, and answers how many are held then.
    pub fn note(&mut self, sender: Sender) -> Result<usize, Refusal>
        ensures { Done (note_rules self.old.senders.items sender) self.old.senders.items (self.old.senders.items ++ sender ∷ []) result self.new.senders.items }
    {
        sender.check()?;
        if self.holds(sender.identifier) {
            return Err(Refusal::Held);
        }
        if self.senders.len() >= MOST_SENDERS {
            return Err(Refusal::Full);
        }
        self.reach = self.reach.max(sender.jitter);
        self.senders.push_reserved(sender);
        Ok(self.senders.len())
    }

    fn holds(&self, identifier: u32) -> bool
        ensures { result ≡ holds self.now.senders.items identifier }
    {
        self.senders
            .iter()
            .any(|sender| sender.identifier == identifier)
    }

    fn sender(&self, stream: u32) -> Result<Sender, Refusal>
        ensures { Asked (stream < length self.now.senders.items) (sender_of self.now.senders.items stream) result }
    {
        self.senders
            .get(stream as usize)
            .copied()
            .ok_or(Refusal::Question)
    }
}

impl Traffic for Sheet {
    ghost meaning = { λ sheet. measured sheet.senders.items };

    ghost limits = { λ sheet. measured_limits sheet.senders.items sheet.lawful sheet.few };

    ghost laws = { λ sheet. measured_laws sheet.senders.items sheet.lawful sheet.apart };

    fn streams(&self) -> u32 {
        self.senders.len() as u32
    }

    fn reach(&self) -> u32 {
        self.reach
    }

    fn node(&self, stream: u32) -> Result<u32, Refusal> {
        Ok(self.sender(stream)?.node)
    }

    fn identifier(&self, stream: u32) -> Result<u32, Refusal> {
        Ok(self.sender(stream)?.identifier)
    }

    fn longest(&self, stream: u32) -> Result<u32, Refusal> {
        longest(self.sender(stream)?.bytes)
    }

    fn cycle(&self, node: u32) -> Result<u32, Refusal> {
        if node > MOST_NODE {
            return Err(Refusal::Question);
        }
        Ok(1)
    }

    fn place(&self, stream: u32, phase: u32, instance: u32) -> Result<i64, Refusal> {
        let sender = self.sender(stream)?;
        if phase > 0 || instance < 1 || instance > LAST_INSTANCE {
            return Err(Refusal::Question);
        }
        // It is far below the end of an i64; TryFrom would want a refusal that never comes.
        Ok(sender.span(instance) as i64 - i64::from(sender.jitter))
    }

    fn count(&self, stream: u32, phase: u32, window: u32) -> Result<u32, Refusal> {
        let sender = self.sender(stream)?;
        if phase > 0 || window > LAST_WINDOW - self.reach {
            return Err(Refusal::Question);
        }
        Ok(sender.within(window + sender.jitter))
    }

    fn turns(&self, node: u32, phase: u32) -> Result<bool, Refusal> {
        if phase >= self.cycle(node)? {
            return Err(Refusal::Question);
        }
        Ok(false)
    }

    fn next_turn(&self, node: u32, phase: u32) -> Result<Option<u32>, Refusal> {
        self.turns(node, phase)?;
        Ok(None)
    }
}
