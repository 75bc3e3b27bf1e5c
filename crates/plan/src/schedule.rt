// What questions need again and again of the messages: their streams, the cycle of each node and the reach.
ghost use Rattle.std.specs.Prelude.{◌≡◌, ◌+◌, ◌≤◌, ◌++◌, max, length, vec_len, vec_capacity, slice_set};
ghost use Rattle.plan.specs.Messages.{records_of};
ghost use Rattle.plan.specs.Streams.{parts};

use crate::cycle::{NODES, cycles_of};
use crate::record::Message;
use crate::streams::{Stream, largest_jitter, list_streams, push_streams};
use bus::refusal::Refusal;
use std::alloc::{AllocError, Global};

const MOST_STREAMS: usize = 128;

#[derive(Drop)]
pub(crate) struct Schedule {
    pub(crate) streams: Vec<Stream>,
    pub(crate) cycles: [u32; NODES],
    pub(crate) reach: u32,
    ghost space: { 128 ≤ vec_capacity streams },
}

impl Schedule {
    ghost use Rattle.std.specs.Prelude.{[], IfOk};
    ghost use Rattle.plan.specs.Schedule.{Works, WorksOut};

    // That of no messages. It takes all the memory that it will need.
    pub(crate) fn new(heap: Global) -> Result<Schedule, AllocError>
        ensures { IfOk result (Works []) }
    {
        let streams = Vec::with_capacity(heap, MOST_STREAMS)?;
        Ok(Schedule {
            streams,
            cycles: [1; NODES],
            reach: 0,
        })
    }

    // Takes a message in, whose node then has the cycle.
    pub(crate) fn add(&mut self, message: &Message, cycle: u32)
        requires { vec_len self.old.streams + 2 ≤ 128 }
        ensures streams { self.new.streams.items ≡ self.old.streams.items ++ parts message.now.record message.now.record.kind }
        ensures cycles { self.new.cycles ≡ slice_set self.old.cycles message.now.record.node cycle }
        ensures reach { self.new.reach ≡ max self.old.reach message.now.record.jitter }
    {
        push_streams(&mut self.streams, message);
        self.cycles[message.node() as usize] = cycle;
        self.reach = self.reach.max(message.jitter());
    }

    // Works it all out from the messages, unless a cycle is too long.
    pub(crate) fn work_out(&mut self, messages: &[Message]) -> Result<(), Refusal>
        requires { length (records_of messages.now) ≤ 64 }
        ensures { WorksOut (records_of messages.now) self.old result self.new }
    {
        self.cycles = cycles_of(messages).ok_or(Refusal::Cycle)?;
        list_streams(&mut self.streams, messages);
        self.reach = largest_jitter(messages);
        Ok(())
    }
}
