// The answer to a table, as text: the verdicts on its messages, or the first fault.
ghost use Rattle.std.specs.Prelude.{IfOk, string_bytes};
ghost use Rattle.table.specs.Answer.{Answers, AnswersHold};

use crate::table::read_table;
use plan::open::OpenPlan;
use report::report;
use settled::settled::calls::settle;
use std::alloc::{AllocError, Global};

// Reads the table into a plan of its own, settles it and reports on it. It fails only for want of memory.
pub fn answer(heap: Global, text: &[u8]) -> Result<String, AllocError>
    ensures answers { IfOk result (λ out. Answers text.now (string_bytes out)) }
    ensures delivered { IfOk result (λ out. AnswersHold text.now (string_bytes out)) }
{
    let mut plan = OpenPlan::new(heap)?;
    match read_table(&mut plan, text) {
        Ok(()) => report(heap, &settle(plan)),
        Err(fault) => format!(in heap; "{fault}\n"),
    }
}
