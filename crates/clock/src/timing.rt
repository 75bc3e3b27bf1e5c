// When the instances of a stream may come. Offsets are counted from the node's phase 0.
ghost use Rattle.std.specs.Prelude.{◌≡◌, ◌^◌, ◌<◌, ◌≤◌, Decides};
ghost use Rattle.clock.specs.Timing.{Paced, lead, late, FirstPlaces, PlaceTold, CountTold, TurnTold};

use bus::refusal::Refusal;

const MOST_INSTANCES: u32 = 4_194_306;

const LONGEST_SPAN: u64 = 20_971_520;

// The jitter is no part of it: it is the message's, and a mixed message has two timings.
#[derive(Clone, Copy, PartialEq, Eq, Debug)]
pub enum Timing {
    // at the offset and then once in each period
    Timed { period: u32, offset: u32 },
    // whenever an event comes, at least the gap after the one before
    Event { gap: u32 },
}

// How far the first place of a timed stream lies past the earliest that the jitter allows.
fn lead(period: u32, offset: u32, jitter: u32, phase: u32) -> u64
    requires { 1 ≤ period }
    ensures is { result ≡ lead period offset jitter phase }
    ensures short { result < period }
{
    (u64::from(offset) + u64::from(jitter) + u64::from(period - phase % period)) % u64::from(period)
}

impl Timing {
    fn is_paced(self) -> bool
        ensures { Decides result (Paced self) }
    {
        match self {
            Timing::Timed { period: step, .. } | Timing::Event { gap: step } => step > 0,
        }
    }

    // How far the place of an instance lies past the earliest that the jitter allows.
    fn late(self, jitter: u32, phase: u32, instance: u32) -> u64
        requires paced { Paced self }
        requires counts { 1 ≤ instance }
        requires few { instance ≤ 4194306 }
        ensures is { result ≡ late self jitter phase instance }
        ensures small { result < 2 ^ 62 }
    {
        match self {
            Timing::Timed { period, offset } => lead(period, offset, jitter, phase)
                + u64::from(instance - 1) * u64::from(period),
            Timing::Event { gap } => u64::from(instance - 1) * u64::from(gap),
        }
    }

    // The place of an instance, counted from 1, at a phase of the node.
    pub fn place(self, jitter: u32, phase: u32, instance: u32) -> Result<i64, Refusal>
        ensures asked { PlaceTold self jitter phase instance result }
        ensures first { FirstPlaces }
    {
        if !self.is_paced() || !(1..=MOST_INSTANCES).contains(&instance) {
            return Err(Refusal::Question);
        }
        // It is far below the end of an i64; TryFrom would want a refusal that never comes.
        Ok(self.late(jitter, phase, instance) as i64 - i64::from(jitter))
    }

    // How many instances have a place of at most `window` at the phase.
    pub fn count(self, jitter: u32, phase: u32, window: u32) -> Result<u32, Refusal>
        ensures { CountTold self jitter phase window result }
    {
        let span = u64::from(window) + u64::from(jitter);
        if !self.is_paced() || span > LONGEST_SPAN {
            return Err(Refusal::Question);
        }
        match self {
            Timing::Timed { period, offset } => {
                let first = lead(period, offset, jitter, phase);
                if span < first {
                    return Ok(0);
                }
                Ok(((span - first) / u64::from(period) + 1) as u32)
            }
            Timing::Event { gap } => Ok((span / u64::from(gap) + 1) as u32),
        }
    }

    // The first phase from `phase` on at which the stream turns, as if the cycle had no end.
    pub fn next_turn(self, jitter: u32, phase: u32) -> Result<Option<u64>, Refusal>
        ensures { TurnTold self jitter phase result }
    {
        if !self.is_paced() {
            return Err(Refusal::Question);
        }
        match self {
            Timing::Timed { period, offset } => Ok(Some(
                u64::from(phase) + lead(period, offset, jitter, phase),
            )),
            Timing::Event { .. } => Ok(None),
        }
    }
}
