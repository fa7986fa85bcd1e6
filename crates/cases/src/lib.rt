//! The worked cases: small vocabularies, and what is true of each, decided by computing. A saturation by rounds finds facts, a test says
//! whether they are all, and theorems tie both to the rules and to the finite models. The functions here do nothing; each carries a
//! theorem in its contract.
#![tactic(auto)]

ghost use Rattle.cases.specs.Cases.{WorkedCasesHold};
ghost use Rattle.cases.specs.Expectations.{BoardsAnswer};
ghost use Rattle.cases.specs.Rounds.{ConclusionsDrawn, RoundsDerive, RoundsTell};

/// The conclusions that a round adds are exactly what one use of a rule draws.
pub fn conclusions_are_drawn_by_rules()
    ensures { ConclusionsDrawn }
{}

/// What rounds find is derivable, and all that is derivable if it has all its conclusions.
pub fn rounds_find_what_is_derivable()
    ensures { RoundsDerive }
{}

/// What rounds find tells what every finite model says if it has all its conclusions.
pub fn rounds_tell_the_truth()
    ensures { RoundsTell }
{}

/// A board on which no job waits answers the expected grades, and with one point it took the expected steps.
pub fn finished_boards_answer_as_expected()
    ensures { BoardsAnswer }
{}

/// Every case of the table meets what it expects.
pub fn worked_cases_hold()
    ensures { WorkedCasesHold }
{}
