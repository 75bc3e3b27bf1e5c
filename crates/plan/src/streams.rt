// The streams of the messages, in their order: what is asked of a traffic again and again.
ghost use Rattle.std.specs.Prelude.{◌≡◌, ◌+◌, ◌*◌, ◌≤◌, [], ◌∷◌, ◌++◌, length, vec_len, vec_capacity};
ghost use Rattle.std.specs.List.{AllByRecursion};
ghost use Rattle.clock.specs.Timing.{Paced, FirstTurning};
ghost use Rattle.plan.specs.Messages.{records_of};
ghost use Rattle.plan.specs.Streams.{stream_of, parts, streams_of, reach_of, SoonestFound};

use crate::record::{Kind, Message};
use bus::frame;
use clock::timing::Timing;

// That its timing is paced stands in the contracts below: a fact of the type would ask it of every stream that a definition builds.
#[derive(Clone, Copy, PartialEq, Eq, Debug)]
pub struct Stream {
    pub node: u32,
    pub identifier: u32,
    pub longest: u32,
    pub jitter: u32,
    pub timing: Timing,
}

impl Message {
    // Its stream of a timing.
    fn stream(&self, timing: Timing) -> Stream
        ensures { result ≡ stream_of self.now.record timing }
    {
        let longest = frame::longest(self.record.bytes as u32).unwrap();
        Stream {
            node: self.node(),
            identifier: self.record.identifier as u32,
            longest,
            jitter: self.jitter(),
            timing,
        }
    }
}

// Adds the timed stream of a message, if it has one, and then its event stream, if it has one.
pub(crate) fn push_streams(streams: &mut Vec<Stream>, message: &Message)
    requires { vec_len streams.old + 2 ≤ vec_capacity streams.old }
    ensures items { streams.new.items ≡ streams.old.items ++ parts message.now.record message.now.record.kind }
    ensures capacity { vec_capacity streams.new ≡ vec_capacity streams.old }
{
    let kind = message.record.kind;
    if let Kind::Periodic { period, offset } | Kind::Mixed { period, offset, .. } = kind {
        let timed = Timing::Timed {
            period: period as u32,
            offset: offset as u32,
        };
        streams.push_reserved(message.stream(timed));
    }
    if let Kind::Sporadic { gap } | Kind::Mixed { gap, .. } = kind {
        let event = Timing::Event { gap: gap as u32 };
        streams.push_reserved(message.stream(event));
    }
}

// Lists the streams of the messages, in place of those that stood there.
pub(crate) fn list_streams(streams: &mut Vec<Stream>, messages: &[Message])
    requires { 2 * length (records_of messages.now) ≤ vec_capacity streams.old }
    ensures items { streams.new.items ≡ streams_of (records_of messages.now) }
    ensures capacity { vec_capacity streams.new ≡ vec_capacity streams.old }
{
    streams.clear();
    for message in messages {
        push_streams(streams, message);
    }
}

// The largest jitter, or 0.
pub(crate) fn largest_jitter(messages: &[Message]) -> u32
    ensures { result ≡ reach_of (records_of messages.now) }
{
    messages
        .iter()
        .map(|message| message.jitter())
        .max()
        .unwrap_or(0)
}

impl Stream {
    // The first phase from `phase` on at which the stream turns, as if the cycle had no end.
    fn next_turn(self, phase: u32) -> Option<u64>
        requires { Paced self.timing }
        ensures { FirstTurning self.timing self.jitter phase result }
    {
        self.timing.next_turn(self.jitter, phase).unwrap()
    }
}

// The first phase from `phase` on, and before `end`, at which a stream of the node turns.
pub(crate) fn soonest_turn(streams: &[Stream], node: u32, phase: u32, end: u32) -> Option<u32>
    requires { AllByRecursion (λ s. Paced s.timing) streams.now }
    ensures { SoonestFound node phase end streams.now result }
{
    streams
        .iter()
        .filter(|stream| stream.node == node)
        .filter_map(|stream| stream.next_turn(phase))
        .min()
        .filter(|turn| *turn < u64::from(end))
        .map(|turn| turn as u32)
}
