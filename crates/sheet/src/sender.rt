// A sender as it was measured.
ghost use Rattle.std.specs.Prelude.{◌≡◌, ◌+◌, ◌<◌, ◌≤◌};
ghost use Rattle.bus.specs.Refused.{answer};
ghost use Rattle.sheet.specs.Sender.{span, spans_fit, limits, Lawful};

use bus::refusal::Refusal;

const MOST_IDENTIFIER: u32 = 2047;

pub(crate) const MOST_NODE: u32 = 15;

const MOST_BYTES: u32 = 8;

const MOST_JITTER: u32 = 1_048_576;

const LONGEST_SPAN: u32 = 8_388_608;

// The spans are the least that 2, 3, .., 8 arrivals in a row lie apart.
#[derive(Clone, Copy, PartialEq, Eq, Debug)]
pub struct Sender {
    pub node: u32,
    pub identifier: u32,
    pub bytes: u32,
    pub jitter: u32,
    pub spans: [u32; 7],
}

impl Sender {
    // Whether the sender keeps its limits.
    pub(crate) fn check(&self) -> Result<(), Refusal>
        ensures { result ≡ answer (limits self.now) tt }
    {
        // A plan's record is asked the first three too, of u64: one function for both would take three conversions here.
        if self.identifier > MOST_IDENTIFIER {
            return Err(Refusal::Identifier);
        }
        if self.node > MOST_NODE {
            return Err(Refusal::Node);
        }
        if self.bytes > MOST_BYTES {
            return Err(Refusal::Bytes);
        }
        if self.jitter > MOST_JITTER {
            return Err(Refusal::Jitter);
        }
        if !self.spans_fit() {
            return Err(Refusal::Spans);
        }
        Ok(())
    }

    // Whether the spans rise from 0 and stay within the longest.
    fn spans_fit(&self) -> bool
        ensures { result ≡ spans_fit self.now.spans }
    {
        self.spans[0] > 0 && self.spans.is_sorted_by(|a, b| a < b) && self.spans[6] <= LONGEST_SPAN
    }

    // How far so many arrivals in a row lie apart at least.
    pub(crate) fn span(&self, arrivals: u32) -> u64
        requires { 1 ≤ arrivals }
        ensures { result ≡ span self.now.spans arrivals }
    {
        let later = arrivals - 1;
        let rest = if later % 7 == 0 {
            0
        } else {
            self.spans[(later % 7) as usize - 1]
        };
        u64::from(later / 7) * u64::from(self.spans[6]) + u64::from(rest)
    }

    // How many arrivals in a row can lie no more than `length` apart.
    pub(crate) fn within(&self, length: u32) -> u32
        requires { (Lawful self.now) × (length ≤ 20971520) }
        ensures some { 1 ≤ result }
        ensures last { span self.now.spans result ≤ length }
        ensures next { length < span self.now.spans (result + 1) }
    {
        let turn = self.spans[6];
        let rest = length % turn;
        let more = self.spans.partition_point(|&span| span <= rest);
        length / turn * 7 + 1 + more as u32
    }
}
