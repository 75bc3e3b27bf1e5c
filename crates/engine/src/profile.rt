// What is worked out once of the stream whose bound is asked for.
ghost use Rattle.std.specs.Prelude.{◌≡◌, ◌<◌, MatchResult};
ghost use Rattle.bus.specs.declared.refusal.Refusal.TheVariants.{Question};
ghost use Rattle.bus.specs.Bound.{blocking as most_blocking, others, own};
ghost use Rattle.engine.specs.Group.{Gathers, Elsewhere};

use crate::group::Group;
use crate::stream::{NODES, Stream};
use crate::window::Window;
use arrayvec::ArrayVec;
use bus::refusal::Refusal;
use bus::traffic::Traffic;

// `beside` has the streams of its own node that can go before the stream's frames, `elsewhere` those of each other node that
// has some.
#[derive(Drop)]
pub(crate) struct Profile<'a, T: Traffic> {
    pub(crate) stream: Stream<'a, T>,
    pub(crate) blocking: u32,
    beside: Group,
    elsewhere: ArrayVec<Group, NODES>,
    ghost blocks: { blocking ≡ most_blocking (T.meaning stream.traffic.now) stream.number },
    ghost own_group: { Gathers (T.meaning stream.traffic.now) stream.number stream.node beside },
    ghost other_groups: { Elsewhere (T.meaning stream.traffic.now) stream.number 16 elsewhere.items },
}

impl<'a, T: Traffic> Profile<'a, T> {
    pub(crate) fn read(traffic: &'a T, number: u32) -> Result<Self, Refusal>
        ensures { MatchResult result (λ p. (p.stream.traffic.now ≡ traffic.now) × (p.stream.number ≡ number)) (λ e. (e ≡ Question) × (number < (T.meaning traffic.now).streams → ⊥)) }
    {
        let stream = Stream::read(traffic, number)?;
        let blocking = stream.blocking();
        let beside = stream.gather(stream.node);
        let elsewhere = stream.elsewhere();
        Ok(Profile {
            stream,
            blocking,
            beside,
            elsewhere,
        })
    }

    // What the streams of the other nodes may send before the stream's frame in the window.
    pub(crate) fn others(&self, window: Window) -> u64
        ensures { let s = self.now.stream in result ≡ others (T.meaning s.traffic.now) s.number window.bits }
    {
        let mut sum = 0;
        for group in self.elsewhere.as_slice() {
            sum += group.heaviest(self.stream.traffic, window);
        }
        sum
    }

    // What the other streams of its own node may send before it in the window, which begins at the phase.
    pub(crate) fn own(&self, phase: u32, window: Window) -> u64
        requires { let s = self.now.stream in phase < (T.meaning s.traffic.now).cycle ((T.meaning s.traffic.now).node s.number) }
        ensures { let s = self.now.stream in result ≡ own (T.meaning s.traffic.now) s.number phase window.bits }
    {
        self.beside.demand(self.stream.traffic, phase, window)
    }
}
