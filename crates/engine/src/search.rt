// The search for the responses of a stream, window by window.
ghost use Rattle.std.specs.Prelude.{◌≡◌, ◌<◌};
ghost use Rattle.std.proofs.Props.{props};
ghost use Rattle.bus.specs.Bound.{need, others};
ghost use Rattle.bus.specs.Search.{Starts};
ghost use Rattle.engine.specs.Bounded.{Worst};
ghost use Rattle.engine.specs.Kept.{Keeps};
ghost use Rattle.engine.specs.Window.{Settled, Asks};

use crate::profile::Profile;
use crate::window::Window;
use bus::traffic::Traffic;

const SLOTS: usize = 256;

// A window and what the other nodes may send in it.
#[derive(Clone, Copy)]
struct Kept {
    window: u32,
    sent: u64,
}

// What the other nodes send depends on nothing but the window, so it is kept of windows that were worked out before. A window
// has one slot, which keeps the last that came to it. `bound` takes no memory from the heap, so this is no map. Each call says
// that the profile stays as it is, since a field cannot speak of what it was before.
#[derive(Drop)]
pub(crate) struct Search<'a, T: Traffic> {
    pub(crate) profile: Profile<'a, T>,
    slots: [Option<Kept>; SLOTS],
    ghost keeps: { Keeps (T.meaning profile.stream.traffic.now) profile.stream.number slots } by { Prim.hlevel props },
}

impl<'a, T: Traffic> Search<'a, T> {
    pub(crate) fn new(profile: Profile<'a, T>) -> Self
        ensures { result.profile ≡ profile.entry }
    {
        Search {
            profile,
            slots: [None; SLOTS],
        }
    }

    // What the other nodes may send in the window, from its slot where that has it.
    fn recall(&mut self, window: Window) -> u64
        ensures value { let s = self.old.profile.stream in result ≡ others (T.meaning s.traffic.now) s.number window.bits }
        ensures same { self.new.profile ≡ self.old.profile }
    {
        let slot = window.bits as usize % SLOTS;
        if let Some(kept) = self.slots[slot]
            && kept.window == window.bits
        {
            return kept.sent;
        }
        let sent = self.profile.others(window);
        self.slots[slot] = Some(Kept {
            window: window.bits,
            sent,
        });
        sent
    }

    // What may be sent in the window before the instance of the stream.
    fn need(&mut self, phase: u32, instance: u32, window: Window) -> u64
        requires { let s = self.old.profile.stream in Asks (T.meaning s.traffic.now) s.number phase instance }
        ensures value { let s = self.old.profile.stream in result ≡ need (T.meaning s.traffic.now) s.number phase instance window.bits }
        ensures same { self.new.profile ≡ self.old.profile }
    {
        let others = self.recall(window);
        let own = self.profile.own(phase, window);
        let earlier = u64::from(instance - 1) * u64::from(self.profile.stream.longest);
        u64::from(self.profile.blocking) + others + own + earlier
    }

    // The least window that the instance settles in, or None to the horizon. No window below `start` may settle it.
    fn settle(&mut self, phase: u32, instance: u32, start: Window) -> Option<Window>
        requires asks { let s = self.old.profile.stream in Asks (T.meaning s.traffic.now) s.number phase instance }
        requires starts { let s = self.old.profile.stream in Starts (T.meaning s.traffic.now) s.number phase instance start.bits }
        ensures window { let s = self.old.profile.stream in Settled (T.meaning s.traffic.now) s.number phase instance result }
        ensures same { self.new.profile ≡ self.old.profile }
    {
        let mut window = start;
        loop {
            let wanted = self.need(phase, instance, window);
            if wanted <= u64::from(window.bits) {
                return Some(window);
            }
            window = Window::up_to_horizon(wanted)?;
        }
    }

    // The largest response of the instances that are listed at the phase, or None where a reached one never settles. Each
    // starts from the window of the one before.
    pub(crate) fn worst(&mut self, phase: u32) -> Option<u32>
        requires { let s = self.old.profile.stream in phase < (T.meaning s.traffic.now).cycle ((T.meaning s.traffic.now).node s.number) }
        ensures worst { let s = self.old.profile.stream in Worst (T.meaning s.traffic.now) s.number phase result }
        ensures same { self.new.profile ≡ self.old.profile }
    {
        let mut most = 0;
        let mut start = Window::new(self.profile.blocking);
        // A range of instances would have an end that is never reached, and owe an answer after it.
        let mut instance = 1;
        loop {
            let window = self.settle(phase, instance, start)?;
            let stream = &self.profile.stream;
            let place = stream
                .traffic
                .place(stream.number, phase, instance)
                .unwrap();
            if place > i64::from(window.bits) {
                return Some(most);
            }
            most = most.max(stream.response(window, place));
            start = window;
            instance += 1;
        }
    }
}
