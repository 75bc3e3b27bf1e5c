// Worked examples, shown of the definitions.
#![tactic(auto)]

ghost use Rattle.worked.specs.Examples.{ExamplesHold};
ghost use Rattle.worked.specs.Runs.{RunsKept};

// Each of the worked examples has the value that is stated of it.
pub fn examples_hold()
    ensures { ExamplesHold }
{}

// Some runs are runs of the bus, and keep what their messages declare.
pub fn runs_kept()
    ensures { RunsKept }
{}
