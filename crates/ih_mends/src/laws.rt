//! The laws of mends, on functions that do nothing.

ghost use Rattle.ih_tables.specs.declared.drafts.Draft.{Draft};
ghost use Rattle.ih_plan.specs.Timetable.{Timetable};
ghost use Rattle.ih_mends.specs.Laws.{MendsAreTrue, NoRuleIsPassedOver};

/// What is said of a mend is true of the timetable with it.
pub fn mends_are_true()
    ensures { (I : Draft) (P : Timetable) → MendsAreTrue I P }
{}

/// Where nothing is said no rule is broken.
pub fn no_rule_is_passed_over()
    ensures { (I : Draft) (P : Timetable) → NoRuleIsPassedOver I P }
{}
