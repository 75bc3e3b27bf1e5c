// What the messages of a plan declare of the runs of its bus.
#![tactic(auto)]

ghost use Rattle.plan.specs.Held.{held};
ghost use Rattle.runs.specs.Declarations.{DeclaredKept, DeclaredMet};
ghost use Rattle.runs.specs.Delivery.{DeclaredDelivered};

use plan::open::OpenPlan;

// Every run that keeps the declarations keeps the places of the plan's traffic.
pub fn declarations_kept(plan: &OpenPlan)
    ensures { DeclaredKept (held plan.now) }
{}

// The declarations can be met: each stream has an instance in some run that keeps them.
pub fn declarations_met(plan: &OpenPlan)
    ensures { DeclaredMet (held plan.now) }
{}

// In every run that keeps the declarations, each instance is off the wire within its stream's bound.
pub fn declarations_delivered(plan: &OpenPlan)
    ensures { DeclaredDelivered (held plan.now) }
{}
