// What the engine asks of a traffic, and what each implementation shows. Asking alters nothing.
ghost use Rattle.std.specs.Prelude.{◌≡◌};
ghost use Rattle.bus.specs.Asked.{StreamAsked, PlaceAsked, CountAsked, CycleAsked, TurnsAsked, NextTurnAsked};
ghost use Rattle.bus.specs.Meaning.{Meaning, Limits, Laws, CountWhole};
ghost use Rattle.bus.specs.Run.{BoundsHold};

use crate::refusal::Refusal;

pub trait Traffic {
    ghost meaning: { Self → Meaning };

    // How many streams there are. They are numbered from 0.
    fn streams(&self) -> u32
        ensures { result ≡ (meaning self.now).streams };

    fn reach(&self) -> u32
        ensures { result ≡ (meaning self.now).reach };

    fn node(&self, stream: u32) -> Result<u32, Refusal>
        ensures { StreamAsked (meaning self.now) (meaning self.now).node stream result };

    fn identifier(&self, stream: u32) -> Result<u32, Refusal>
        ensures { StreamAsked (meaning self.now) (meaning self.now).identifier stream result };

    fn longest(&self, stream: u32) -> Result<u32, Refusal>
        ensures { StreamAsked (meaning self.now) (meaning self.now).longest stream result };

    fn cycle(&self, node: u32) -> Result<u32, Refusal>
        ensures { CycleAsked (meaning self.now) node result };

    fn place(&self, stream: u32, phase: u32, instance: u32) -> Result<i64, Refusal>
        ensures { PlaceAsked (meaning self.now) stream phase instance result };

    // How many instances have a place of at most `window` at the phase.
    fn count(&self, stream: u32, phase: u32, window: u32) -> Result<u32, Refusal>
        ensures { CountAsked (meaning self.now) stream phase window result };

    fn turns(&self, node: u32, phase: u32) -> Result<bool, Refusal>
        ensures { TurnsAsked (meaning self.now) node phase result };

    // The first turning phase from `phase` to the cycle's end.
    fn next_turn(&self, node: u32, phase: u32) -> Result<Option<u32>, Refusal>
        ensures { NextTurnAsked (meaning self.now) node phase result };

    ghost limits: { (t : Self) → Limits (meaning t) };

    ghost laws: { (t : Self) → Laws (meaning t) };
}

// A count leaves no instance out.
pub fn count_is_whole()
    ensures { CountWhole }
{}

// Every bound holds: in every run that keeps a traffic's places, each instance is off the wire within its stream's bound.
pub fn bounds_hold()
    ensures { BoundsHold }
{}
