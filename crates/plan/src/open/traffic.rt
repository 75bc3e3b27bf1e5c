// An open plan is a traffic.
ghost use Rattle.std.specs.Prelude.{◌<◌, length};
ghost use Rattle.bus.specs.Asked.{Asked};
ghost use Rattle.plan.specs.Cycle.{cycle_of};
ghost use Rattle.plan.specs.Held.{held};
ghost use Rattle.plan.specs.Streams.{streams_of, stream_at, traffic_of};
ghost use Rattle.plan.specs.Carried.{limits_of, laws_of};
ghost use Rattle.plan.specs.Plans.{sound};

use super::OpenPlan;
use crate::streams::{Stream, soonest_turn};
use bus::refusal::Refusal;
use bus::traffic::Traffic;

// The longest window, with the reach, that a count is asked for.
const LAST_WINDOW: u64 = 20_971_520;

impl OpenPlan {
    // The stream of a number.
    fn stream(&self, number: u32) -> Result<Stream, Refusal>
        ensures { Asked (number < length (streams_of (held self.now))) (stream_at (held self.now) number) result }
    {
        self.schedule
            .streams
            .get(number as usize)
            .copied()
            .ok_or(Refusal::Question)
    }

    // The stream of a number, where the phase is one of its node.
    fn stream_at(&self, number: u32, phase: u32) -> Result<Stream, Refusal>
        ensures { Asked ((number < length (streams_of (held self.now))) × (phase < cycle_of (stream_at (held self.now) number).node (held self.now))) (stream_at (held self.now) number) result }
    {
        let stream = self.stream(number)?;
        if phase >= self.schedule.cycles[stream.node as usize] {
            return Err(Refusal::Question);
        }
        Ok(stream)
    }
}

impl Traffic for OpenPlan {
    ghost meaning = { λ p. traffic_of (held p) };

    ghost limits = { λ t. limits_of (held t) (sound t) };

    ghost laws = { λ t. laws_of (held t) (sound t) };

    fn streams(&self) -> u32 {
        self.schedule.streams.len() as u32
    }

    fn reach(&self) -> u32 {
        self.schedule.reach
    }

    fn node(&self, stream: u32) -> Result<u32, Refusal> {
        Ok(self.stream(stream)?.node)
    }

    fn identifier(&self, stream: u32) -> Result<u32, Refusal> {
        Ok(self.stream(stream)?.identifier)
    }

    fn longest(&self, stream: u32) -> Result<u32, Refusal> {
        Ok(self.stream(stream)?.longest)
    }

    fn cycle(&self, node: u32) -> Result<u32, Refusal> {
        self.schedule
            .cycles
            .get(node as usize)
            .copied()
            .ok_or(Refusal::Question)
    }

    fn place(&self, stream: u32, phase: u32, instance: u32) -> Result<i64, Refusal> {
        let asked = self.stream_at(stream, phase)?;
        asked.timing.place(asked.jitter, phase, instance)
    }

    fn count(&self, stream: u32, phase: u32, window: u32) -> Result<u32, Refusal> {
        let asked = self.stream_at(stream, phase)?;
        if u64::from(window) + u64::from(self.schedule.reach) > LAST_WINDOW {
            return Err(Refusal::Question);
        }
        asked.timing.count(asked.jitter, phase, window)
    }

    fn turns(&self, node: u32, phase: u32) -> Result<bool, Refusal> {
        Ok(self.next_turn(node, phase)? == Some(phase))
    }

    fn next_turn(&self, node: u32, phase: u32) -> Result<Option<u32>, Refusal> {
        let cycle = self.cycle(node)?;
        if phase >= cycle {
            return Err(Refusal::Question);
        }
        Ok(soonest_turn(&self.schedule.streams, node, phase, cycle))
    }
}
