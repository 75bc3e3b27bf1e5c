// The phases of a node after which its places may grow.
ghost use Rattle.std.specs.Prelude.{◌≡◌, ◌+◌, ◌-◌, ◌<◌, IfSome};
ghost use Rattle.std.specs.Iterator.{at_most};
ghost use Rattle.bus.specs.Asked.{FirstTurn};

use bus::traffic::Traffic;

// The turning phases of a node from a phase to the cycle's end, in rising order.
#[derive(Drop)]
pub(crate) struct Turns<'a, T: Traffic> {
    traffic: &'a T,
    node: u32,
    from: u32,
    ghost known: { node < 16 },
}

impl<'a, T: Traffic> Turns<'a, T> {
    // Those after phase 0.
    pub(crate) fn new(traffic: &'a T, node: u32) -> Self
        requires { node < 16 }
        ensures { (result.traffic.now ≡ traffic.now) × (result.node ≡ node) × (result.from ≡ 1) }
    {
        Turns {
            traffic,
            node,
            from: 1,
        }
    }
}

impl<'a, T: Traffic> Iterator for Turns<'a, T> {
    type Item = u32;

    ghost next_gives = { λ s r t. FirstTurn (T.meaning s.traffic.now) s.node s.from r × IfSome r (λ turn. (t.traffic.now ≡ s.traffic.now) × (t.node ≡ s.node) × (t.from ≡ turn + 1)) };

    ghost remaining = { λ s. at_most ((T.meaning s.traffic.now).cycle s.node - s.from) };

    fn next(&mut self) -> Option<u32> {
        if self.from < self.traffic.cycle(self.node).unwrap() {
            let turn = self.traffic.next_turn(self.node, self.from).unwrap()?;
            self.from = turn + 1;
            Some(turn)
        } else {
            None
        }
    }
}
