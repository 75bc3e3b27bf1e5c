// What is declared of a message, and the limits of each number.
ghost use Rattle.std.specs.Prelude.{◌≡◌, true, Err, MatchResult};
ghost use Rattle.bus.specs.Refused.{answer};
ghost use Rattle.plan.specs.Record.{interval, intervals, offset_below, limits, within};

use bus::refusal::Refusal;

const LARGEST_IDENTIFIER: u64 = 2047;

const LARGEST_NODE: u64 = 15;

const MOST_BYTES: u64 = 8;

const LONGEST_INTERVAL: u64 = 1_048_576;

const LARGEST_JITTER: u64 = 1_048_576;

const LATEST_DUE: u64 = 4_194_304;

// A mixed message comes both by the clock and at events, the two independent of each other.
#[derive(Clone, Copy, PartialEq, Eq, Debug)]
pub enum Kind {
    Periodic { period: u64, offset: u64 },
    Sporadic { gap: u64 },
    Mixed { period: u64, offset: u64, gap: u64 },
}

#[derive(Clone, Copy, PartialEq, Eq, Debug)]
pub struct Record {
    pub identifier: u64,
    pub node: u64,
    pub bytes: u64,
    pub kind: Kind,
    pub jitter: u64,
    pub due: u64,
}

// A record whose numbers are within their limits.
#[derive(Clone, Copy, PartialEq, Eq, Debug)]
pub struct Message {
    pub record: Record,
    pub ghost within: { within «record» ≡ true },
}

fn is_interval(n: u64) -> bool
    ensures { result ≡ interval n }
{
    (1..=LONGEST_INTERVAL).contains(&n)
}

impl Kind {
    fn has_intervals(self) -> bool
        ensures { result ≡ intervals self }
    {
        match self {
            Kind::Periodic { period: n, .. } | Kind::Sporadic { gap: n } => is_interval(n),
            Kind::Mixed { period, gap, .. } => is_interval(period) && is_interval(gap),
        }
    }

    fn is_offset_below(self) -> bool
        ensures { result ≡ offset_below self }
    {
        match self {
            Kind::Periodic { period, offset } | Kind::Mixed { period, offset, .. } => {
                offset < period
            }
            Kind::Sporadic { .. } => true,
        }
    }
}

impl Record {
    // The message of the record, if each number is within its limits.
    pub fn check(self) -> Result<Message, Refusal>
        ensures { MatchResult result (λ m. m.record ≡ self) (λ e. answer (limits self) (tt {0}) ≡ Err e) }
    {
        if self.identifier > LARGEST_IDENTIFIER {
            return Err(Refusal::Identifier);
        }
        if self.node > LARGEST_NODE {
            return Err(Refusal::Node);
        }
        if self.bytes > MOST_BYTES {
            return Err(Refusal::Bytes);
        }
        if !self.kind.has_intervals() {
            return Err(Refusal::Period);
        }
        if !self.kind.is_offset_below() {
            return Err(Refusal::Offset);
        }
        if self.jitter > LARGEST_JITTER {
            return Err(Refusal::Jitter);
        }
        if !(1..=LATEST_DUE).contains(&self.due) {
            return Err(Refusal::Due);
        }
        Ok(Message { record: self })
    }
}

impl Message {
    pub(crate) fn node(&self) -> u32
        ensures { result ≡ self.now.record.node }
    {
        self.record.node as u32
    }

    pub(crate) fn jitter(&self) -> u32
        ensures { result ≡ self.now.record.jitter }
    {
        self.record.jitter as u32
    }
}
