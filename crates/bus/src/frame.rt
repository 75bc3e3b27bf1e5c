// The length of a data frame on the wire, in bit times.
ghost use Rattle.bus.specs.Frame.{LongestAsked};

use crate::refusal::Refusal;

const MOST_BYTES: u32 = 8;

// The longest that a frame with so many data bytes can be, stuffing and intermission included.
pub fn longest(bytes: u32) -> Result<u32, Refusal>
    ensures { LongestAsked bytes result }
{
    if bytes > MOST_BYTES {
        return Err(Refusal::Bytes);
    }
    Ok(55 + 10 * bytes)
}
