// The bound of a stream of any traffic.
ghost use Rattle.engine.specs.Bounded.{BoundAsked, BoundDelivered};

use crate::profile::Profile;
use crate::search::Search;
use crate::turn::Turns;
use bus::refusal::Refusal;
use bus::traffic::Traffic;

// The longest time from the arrival of an instance of the stream until its frame is off the wire, over all phases of its
// node; None where the stream is unsettled, so that no such time is found. Phase 0 or a turning phase has it.
pub fn bound<T: Traffic>(traffic: &T, stream: u32) -> Result<Option<u32>, Refusal>
    ensures asked { BoundAsked (T.meaning traffic.now) stream result }
    ensures delivered { BoundDelivered (T.meaning traffic.now) stream result }
{
    let profile = Profile::read(traffic, stream)?;
    let node = profile.stream.node;
    let mut search = Search::new(profile);
    let Some(first) = search.worst(0) else {
        return Ok(None);
    };
    let mut most = first;
    for turn in Turns::new(traffic, node) {
        let Some(here) = search.worst(turn) else {
            return Ok(None);
        };
        most = most.max(here);
    }
    Ok(Some(most))
}
