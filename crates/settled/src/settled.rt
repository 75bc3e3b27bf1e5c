// A plan whose messages are worked out. It can be read and reopened, and not altered.
ghost use Rattle.std.specs.Prelude.{◌≡◌, ℕ, ◌<◌, length};
ghost use Rattle.plan.specs.Held.{held, record_at};
ghost use Rattle.plan.specs.Streams.{traffic_of};
ghost use Rattle.settled.specs.Figures.{row_at, figure_at, Known};

use arrayvec::ArrayVec;
use calls::Row;
use plan::open::OpenPlan;

pub mod calls;

const MOST_RECORDS: usize = 64;

// A row for each message held, in their order.
#[derive(Drop)]
pub struct SettledPlan {
    plan: OpenPlan,
    rows: ArrayVec<Row, MOST_RECORDS>,
    ghost whole: { length rows.items ≡ length (held plan) },
    ghost named: { (k : ℕ) → k < length (held plan) → (row_at rows.items k).identifier ≡ (record_at (held plan) k).identifier },
    ghost known: { (k : ℕ) → k < length (held plan) → Known (traffic_of (held plan)) (record_at (held plan) k) (figure_at rows.items k) },
}
