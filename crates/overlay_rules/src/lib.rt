// The rules of overlays, as definitions in specs/. This code only names the theorems, so that the check demands their proofs.
#![tactic(auto)]

ghost use Rattle.overlay_rules.specs.CheckExamples.{CheckExamples};
ghost use Rattle.overlay_rules.specs.Merges.{MergesBySteps};
ghost use Rattle.overlay_rules.specs.PlanExamples.{PlanExamples};
ghost use Rattle.overlay_rules.specs.Steps.{InSteps};
ghost use Rattle.overlay_rules.specs.Laws.{AsksWhatItReads, DecidedByReads, RecordsWhatItTouches};

// The check of small overlays, one for each refusal, computed.
pub fn check_examples_stand()
    ensures { CheckExamples }
{}

// A plan with filled and raised cells, and one plan for each refusal, computed.
pub fn plan_examples_stand()
    ensures { PlanExamples }
{}

// What a plan asks of the tree is what the rules say it reads, and what it writes.
pub fn asks_what_it_reads()
    ensures { AsksWhatItReads }
{}

// A plan is decided by what it asks: two trees that agree there give the same plan.
pub fn decided_by_reads()
    ensures { DecidedByReads }
{}

// The record has one entry for each place that is read or written, and no place is both.
pub fn records_what_it_touches()
    ensures { RecordsWhatItTouches }
{}

// A plan as passes with early refusals, each after the other.
pub fn plan_goes_in_steps()
    ensures { InSteps }
{}

// What a merge leaves, by the five steps of the rules, and that all else stays.
pub fn merge_goes_by_the_rules()
    ensures { MergesBySteps }
{}
