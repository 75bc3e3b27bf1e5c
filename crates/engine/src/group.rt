// What the streams of a group may send before the frames of a stream, in bits.
ghost use Rattle.std.specs.Prelude.{◌≡◌, ◌<◌};
ghost use Rattle.bus.specs.Bound.{load};
ghost use Rattle.engine.specs.Group.{Members, sent, heaviest_sent};

use crate::turn::Turns;
use crate::window::Window;
use arrayvec::ArrayVec;
use bus::traffic::Traffic;

// A traffic has no more streams than this.
const MOST_STREAMS: usize = 128;

// Some streams of a node. A group does not hold its traffic: a vector of fixed capacity fills its free places by Default, which
// is here for that alone, and a reference has none.
#[derive(Default, Drop)]
pub(crate) struct Group {
    pub(crate) node: u32,
    pub(crate) streams: ArrayVec<u32, MOST_STREAMS>,
}

// What a stream may send in a window that begins at the phase. That a phase is one of its node stands in each contract: a type
// for it would carry the traffic and the node with every phase.
fn load<T: Traffic>(traffic: &T, stream: u32, phase: u32, window: Window) -> u64
    requires { (stream < (T.meaning traffic.now).streams) × (phase < (T.meaning traffic.now).cycle ((T.meaning traffic.now).node stream)) }
    ensures { result ≡ load (T.meaning traffic.now) stream phase window.bits }
{
    let count = traffic.count(stream, phase, window.bits).unwrap();
    u64::from(count) * u64::from(traffic.longest(stream).unwrap())
}

impl Group {
    // What the group may send in a window that begins at the phase.
    pub(crate) fn demand<T: Traffic>(&self, traffic: &T, phase: u32, window: Window) -> u64
        requires { (Members (T.meaning traffic.now) self.now) × (phase < (T.meaning traffic.now).cycle self.now.node) }
        ensures { result ≡ sent (T.meaning traffic.now) self.now phase window.bits }
    {
        let mut sum = 0;
        for &stream in self.streams.as_slice() {
            sum += load(traffic, stream, phase, window);
        }
        sum
    }

    // The most that the group may send in a window, over all phases of its node. Phase 0 or a turning phase has it.
    pub(crate) fn heaviest<T: Traffic>(&self, traffic: &T, window: Window) -> u64
        requires { (Members (T.meaning traffic.now) self.now) × (self.now.node < 16) }
        ensures { result ≡ heaviest_sent (T.meaning traffic.now) self.now window.bits }
    {
        let mut most = self.demand(traffic, 0, window);
        for turn in Turns::new(traffic, self.node) {
            most = most.max(self.demand(traffic, turn, window));
        }
        most
    }
}
