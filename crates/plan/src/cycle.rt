// The cycle of a node: the least common multiple of its periods.
ghost use Rattle.std.specs.Prelude.{fold};
ghost use Rattle.clock.specs.Multiple.{lcm};
ghost use Rattle.plan.specs.Cycle.{periods_in, CycleTold, CycleAsked};
ghost use Rattle.plan.specs.Messages.{records_of};
ghost use Rattle.plan.specs.Open.{CyclesAsked};

use crate::record::{Kind, Message};
use clock::multiple;

pub(crate) const NODES: usize = 16;

const LONGEST_CYCLE: u64 = 4_194_304;

impl Message {
    // The cycle of a node with the period of one more message, unless it is too long.
    pub(crate) fn cycle_with(&self, cycle: u32) -> Option<u32>
        ensures { CycleTold (fold lcm cycle (periods_in self.now.record.kind)) result }
    {
        let longer = match self.record.kind {
            Kind::Periodic { period, .. } | Kind::Mixed { period, .. } => {
                multiple::lcm(cycle, period as u32)
            }
            Kind::Sporadic { .. } => u64::from(cycle),
        };
        (longer <= LONGEST_CYCLE).then(|| longer as u32)
    }
}

// The cycle of a node, unless it is too long.
fn cycle_of(messages: &[Message], node: u64) -> Option<u32>
    ensures { CycleAsked node (records_of messages.now) result }
{
    let mut cycle = 1;
    for message in messages {
        if message.record.node == node {
            cycle = message.cycle_with(cycle)?;
        }
    }
    Some(cycle)
}

// The cycle of each node, unless one is too long.
pub(crate) fn cycles_of(messages: &[Message]) -> Option<[u32; NODES]>
    ensures { CyclesAsked (records_of messages.now) result }
{
    let mut cycles = [1; NODES];
    for (node, cycle) in cycles.iter_mut().enumerate() {
        // There is no From of a usize for a u64.
        *cycle = cycle_of(messages, node as u64)?;
    }
    Some(cycles)
}
