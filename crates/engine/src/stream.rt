// The stream whose bound is asked for, and the streams that can go before its frames.
ghost use Rattle.std.specs.Prelude.{◌≡◌, ◌+◌, ◌<◌, ◌≤◌, pos, ◌-ℤ◌, neg_ℤ, ◌≤ℤ◌, MatchResult};
ghost use Rattle.bus.specs.declared.refusal.Refusal.TheVariants.{Question};
ghost use Rattle.bus.specs.Bound.{blocking};
ghost use Rattle.engine.specs.Group.{Gathers, Elsewhere, rival};

use crate::group::Group;
use crate::window::Window;
use arrayvec::ArrayVec;
use bus::refusal::Refusal;
use bus::traffic::Traffic;

pub(crate) const NODES: usize = 16;

// A stream of a traffic, by its number, with what is read of it once.
#[derive(Drop)]
pub(crate) struct Stream<'a, T: Traffic> {
    pub(crate) traffic: &'a T,
    pub(crate) number: u32,
    pub(crate) node: u32,
    identifier: u32,
    pub(crate) longest: u32,
    ghost known: { number < (T.meaning traffic.now).streams },
    ghost of_node: { node ≡ (T.meaning traffic.now).node number },
    ghost identified: { identifier ≡ (T.meaning traffic.now).identifier number },
    ghost long: { longest ≡ (T.meaning traffic.now).longest number },
}

impl<'a, T: Traffic> Stream<'a, T> {
    pub(crate) fn read(traffic: &'a T, number: u32) -> Result<Self, Refusal>
        ensures { MatchResult result (λ s. (s.traffic.now ≡ traffic.now) × (s.number ≡ number)) (λ e. (e ≡ Question) × (number < (T.meaning traffic.now).streams → ⊥)) }
    {
        let node = traffic.node(number)?;
        let identifier = traffic.identifier(number)?;
        let longest = traffic.longest(number)?;
        Ok(Stream {
            traffic,
            number,
            node,
            identifier,
            longest,
        })
    }

    // The longest frame that may be on the wire when one of the stream is queued.
    pub(crate) fn blocking(&self) -> u32
        ensures { result ≡ blocking (T.meaning self.now.traffic.now) self.now.number }
    {
        let mut most = 0;
        for other in 0..self.traffic.streams() {
            if self.identifier <= self.traffic.identifier(other).unwrap() {
                most = self.traffic.longest(other).unwrap().max(most);
            }
        }
        most
    }

    // Whether `other` is another stream of the node with the same or a lower identifier.
    fn is_rival(&self, node: u32, other: u32) -> bool
        requires { other < (T.meaning self.now.traffic.now).streams }
        ensures { result ≡ rival (T.meaning self.now.traffic.now) self.now.number node other }
    {
        self.traffic.node(other).unwrap() == node
            && other != self.number
            && self.traffic.identifier(other).unwrap() <= self.identifier
    }

    // The streams of the node that can go before the stream's frames.
    pub(crate) fn gather(&self, node: u32) -> Group
        ensures { Gathers (T.meaning self.now.traffic.now) self.now.number node result }
    {
        let mut streams = ArrayVec::new();
        for other in 0..self.traffic.streams() {
            if self.is_rival(node, other) {
                streams.push(other);
            }
        }
        Group { node, streams }
    }

    // The groups of the other nodes that have such streams.
    pub(crate) fn elsewhere(&self) -> ArrayVec<Group, NODES>
        ensures { Elsewhere (T.meaning self.now.traffic.now) self.now.number 16 result.items }
    {
        let mut groups = ArrayVec::new();
        for node in 0..NODES as u32 {
            if node != self.node {
                let group = self.gather(node);
                if !group.streams.is_empty() {
                    groups.push(group);
                }
            }
        }
        groups
    }

    // The time from the arrival of an instance at its place to the end of its frame after the window.
    pub(crate) fn response(&self, window: Window, place: i64) -> u32
        requires { (neg_ℤ (pos 16777216) ≤ℤ place) × (place ≤ℤ pos window.bits) }
        ensures { pos result ≡ pos (window.bits + self.now.longest) -ℤ place }
    {
        (i64::from(window.bits + self.longest) - place) as u32
    }
}
