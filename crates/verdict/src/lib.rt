// Whether a message is met: the largest bound of its streams beside its due time.
#![tactic(auto)]

ghost use Rattle.verdict.specs.Judged.{Judged, JudgedDelivers, judgement_of};
ghost use Rattle.verdict.specs.Text.{judgement_text};
ghost use Rattle.std.specs.Prelude.{◌≡◌, Some};

use bus::refusal::Refusal;
use bus::traffic::Traffic;
use engine::bound::bound;
use std::fmt;

#[derive(Clone, Copy, PartialEq, Eq, Debug)]
pub enum Judgement {
    // off the wire by the due time
    Met,
    // or not
    Late,
}

impl fmt::Display for Judgement {
    ghost output = { λ judgement. Some (judgement_text judgement) };

    fn fmt<W: fmt::Write>(&self, f: &mut fmt::Formatter<W>) -> fmt::Result {
        f.write_str(match self {
            Judgement::Met => "met",
            Judgement::Late => "late",
        })
    }
}

// The bound on a message, and whether it is met. A message that is unsettled has none.
#[derive(Clone, Copy, PartialEq, Eq, Debug)]
pub struct Verdict {
    pub bound: u32,
    pub judgement: Judgement,
}

fn compare(bound: u32, due: u32) -> Judgement
    ensures { result ≡ judgement_of bound due }
{
    if bound <= due {
        Judgement::Met
    } else {
        Judgement::Late
    }
}

// The verdict on the message with the identifier, whose streams are those that have it, or none where one of them is
// unsettled.
pub fn judge<T: Traffic>(traffic: &T, identifier: u32, due: u32) -> Result<Option<Verdict>, Refusal>
    ensures judged { Judged (T.meaning traffic.now) identifier due result }
    ensures delivered { JudgedDelivers (T.meaning traffic.now) identifier result }
{
    let mut most = None;
    for stream in 0..traffic.streams() {
        if traffic.identifier(stream)? == identifier {
            let Some(bound) = bound(traffic, stream)? else {
                return Ok(None);
            };
            most = most.max(Some(bound));
        }
    }
    let bound = most.ok_or(Refusal::NotHeld)?;
    Ok(Some(Verdict {
        bound,
        judgement: compare(bound, due),
    }))
}
