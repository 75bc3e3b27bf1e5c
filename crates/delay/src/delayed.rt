// A traffic whose nodes queue up to a delay later than those of the traffic below.
ghost use Rattle.std.specs.Prelude.{◌≡◌, ◌+◌, ◌<◌, ◌≤◌, true, replicate, pos, ◌-ℤ◌, is_ok, if◌then◌else◌};
ghost use Rattle.bus.specs.Asked.{Asked};
ghost use Rattle.bus.specs.Refused.{answer};
ghost use Rattle.bus.specs.Run.{reduced};
ghost use Rattle.delay.specs.Delayed.{delayed, listed, largest_of, set_rules, ShiftAsked, StreamShiftAsked, Alike, DelaysHold};
ghost use Rattle.delay.specs.Lawful.{delayed_limits, delayed_laws};

use bus::refusal::Refusal;
use bus::traffic::Traffic;

const MOST_DELAY: u32 = 1_048_576;

const MOST_REACH: u32 = 16_777_216;

// The longest window, with the reach, that a count is asked for.
const LAST_WINDOW: u32 = 20_971_520;

#[derive(Drop)]
pub struct Delayed<T: Traffic> {
    below: T,
    // of each node
    delays: [u32; 16],
    largest: u32,
    ghost most: { largest ≡ largest_of delays },
    ghost fits: { (T.Traffic.meaning below).reach + largest_of delays ≤ 16777216 },
}

// Where a phase stands below, and how much later its node queues.
#[derive(Clone, Copy)]
struct Shift {
    phase: u32,
    delay: u32,
}

fn largest_of(delays: &[u32; 16]) -> u32
    ensures { result ≡ largest_of delays.now }
{
    delays.iter().copied().max().unwrap_or(0)
}

// The phase that stands `delay` before `phase`.
fn back(cycle: u32, phase: u32, delay: u32) -> u32
    requires { (phase < cycle) × (cycle ≤ 4194304) }
    ensures { result ≡ reduced cycle (pos phase -ℤ pos delay) }
{
    (phase + (cycle - delay % cycle)) % cycle
}

impl<T: Traffic> Delayed<T> {
    // Stands on `below`, with no delay.
    pub fn new(below: T) -> Delayed<T>
        ensures below { result.below ≡ below }
        ensures delays { result.delays ≡ replicate 16 0 }
        ensures alike { Alike (T.Traffic.meaning below) (delayed (T.Traffic.meaning result.below) (listed result.delays)) }
    {
        Delayed {
            below,
            delays: [0; 16],
            largest: 0,
        }
    }

    // Sets the delay of each node.
    pub fn set(&mut self, delays: [u32; 16]) -> Result<(), Refusal>
        ensures answers { result ≡ answer (set_rules (T.Traffic.meaning self.old.below) delays) tt }
        ensures below { self.new.below ≡ self.old.below }
        ensures delays { self.new.delays ≡ (if is_ok result then delays else self.old.delays) }
        ensures meaning { is_ok result ≡ true → delayed (T.Traffic.meaning self.new.below) (listed self.new.delays) ≡ delayed (T.Traffic.meaning self.old.below) (listed delays) }
        ensures later { is_ok result ≡ true → DelaysHold (T.Traffic.meaning self.old.below) (listed delays) (delayed (T.Traffic.meaning self.new.below) (listed self.new.delays)) }
    {
        let largest = largest_of(&delays);
        if largest > MOST_DELAY {
            return Err(Refusal::Delay);
        }
        if self.below.reach() + largest > MOST_REACH {
            return Err(Refusal::Reach);
        }
        self.delays = delays;
        self.largest = largest;
        Ok(())
    }

    // The delay of a node.
    pub fn delay(&self, node: u32) -> Result<u32, Refusal>
        ensures { Asked (node < 16) (listed self.now.delays node) result }
    {
        self.delays
            .get(node as usize)
            .copied()
            .ok_or(Refusal::Question)
    }

    pub fn below(&self) -> &T
        ensures { result.now ≡ self.now.below }
    {
        &self.below
    }

    pub fn into_below(self) -> T
        ensures { result ≡ self.below }
    {
        self.below
    }

    // Where a phase of a node stands.
    fn shift(&self, node: u32, phase: u32) -> Result<Shift, Refusal>
        ensures { ShiftAsked (T.Traffic.meaning self.now.below) (listed self.now.delays) node phase result }
    {
        let cycle = self.below.cycle(node)?;
        if phase >= cycle {
            return Err(Refusal::Question);
        }
        let delay = self.delays[node as usize];
        Ok(Shift {
            phase: back(cycle, phase, delay),
            delay,
        })
    }

    // Where a phase of a stream's node stands.
    fn shift_of(&self, stream: u32, phase: u32) -> Result<Shift, Refusal>
        ensures { StreamShiftAsked (T.Traffic.meaning self.now.below) (listed self.now.delays) stream phase result }
    {
        let node = self.below.node(stream)?;
        self.shift(node, phase)
    }
}

impl<T: Traffic> Traffic for Delayed<T> {
    ghost meaning = { λ d. delayed (T.Traffic.meaning d.below) (listed d.delays) };

    ghost limits = { λ d. delayed_limits (T.Traffic.meaning d.below) (T.Traffic.limits d.below) (listed d.delays) d.fits };

    ghost laws = { λ d. delayed_laws (T.Traffic.meaning d.below) (T.Traffic.limits d.below) (listed d.delays) (T.Traffic.laws d.below) };

    fn streams(&self) -> u32 {
        self.below.streams()
    }

    fn reach(&self) -> u32 {
        self.below.reach() + self.largest
    }

    fn node(&self, stream: u32) -> Result<u32, Refusal> {
        self.below.node(stream)
    }

    fn identifier(&self, stream: u32) -> Result<u32, Refusal> {
        self.below.identifier(stream)
    }

    fn longest(&self, stream: u32) -> Result<u32, Refusal> {
        self.below.longest(stream)
    }

    fn cycle(&self, node: u32) -> Result<u32, Refusal> {
        self.below.cycle(node)
    }

    fn place(&self, stream: u32, phase: u32, instance: u32) -> Result<i64, Refusal> {
        let here = self.shift_of(stream, phase)?;
        let place = self.below.place(stream, here.phase, instance)?;
        Ok(place - i64::from(here.delay))
    }

    fn count(&self, stream: u32, phase: u32, window: u32) -> Result<u32, Refusal> {
        let here = self.shift_of(stream, phase)?;
        if window > LAST_WINDOW - self.reach() {
            return Err(Refusal::Question);
        }
        self.below.count(stream, here.phase, window + here.delay)
    }

    fn turns(&self, node: u32, phase: u32) -> Result<bool, Refusal> {
        let here = self.shift(node, phase)?;
        self.below.turns(node, here.phase)
    }

    fn next_turn(&self, node: u32, phase: u32) -> Result<Option<u32>, Refusal> {
        let cycle = self.below.cycle(node)?;
        if phase >= cycle {
            return Err(Refusal::Question);
        }
        let delay = self.delays[node as usize] % cycle;
        if phase < delay {
            if let Some(turn) = self.below.next_turn(node, phase + cycle - delay)? {
                return Ok(Some(turn + delay - cycle));
            }
        }
        let turn = self.below.next_turn(node, phase.saturating_sub(delay))?;
        Ok(
            turn.filter(|turn| *turn < cycle - delay)
                .map(|turn| turn + delay),
        )
    }
}
