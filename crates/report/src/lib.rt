// The report on a settled plan, as text.
#![tactic(auto)]

ghost use Rattle.std.specs.Prelude.{◌≡◌, IfOk, string_bytes};
ghost use Rattle.report.specs.Report.{row_text, Reports};
ghost use Rattle.settled.specs.Holding.{holding, VerdictsHold};

use settled::settled::SettledPlan;
use settled::settled::calls::Row;
use std::alloc::{AllocError, Global};
use verdict::Verdict;

// No identifier is as high.
const IDENTIFIERS: u64 = 2048;

// The line on one message.
pub fn row_text(
    heap: Global,
    identifier: u64,
    verdict: Option<Verdict>,
) -> Result<String, AllocError>
    ensures { IfOk result (λ line. string_bytes line ≡ row_text identifier verdict) }
{
    let row = Row {
        identifier,
        verdict,
    };
    format!(in heap; "{row}\n")
}

// A line for each message that the plan holds, in rising identifier.
pub fn report(heap: Global, plan: &SettledPlan) -> Result<String, AllocError>
    ensures reports { IfOk result (λ text. Reports (holding plan.now) (string_bytes text)) }
    ensures delivered { IfOk result (λ _. VerdictsHold (holding plan.now)) }
{
    let mut text = String::new(heap);
    // The range gives the order; sorted rows would be a copy first.
    for identifier in 0..IDENTIFIERS {
        if let Ok(verdict) = plan.verdict(identifier) {
            text.push_str(&row_text(heap, identifier, verdict)?)?;
        }
    }
    Ok(text)
}
