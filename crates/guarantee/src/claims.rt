// What is proved of every list of calls. Each function's contract is a theorem; the body does nothing.
ghost use Rattle.guarantee.specs.Claims.{EveryRunIsGuaranteed, EveryOpenedRunIsGuaranteed, HollowRostersAreRuledOut, AWrongVerdictIsRuledOut, RecordsStayRight, SettleEnds, APathIsThere, EveryListIsAnswered, AnswersAreFixed};

// Every list of calls on an open roster with no rule laid has the guarantee.
pub fn every_run_is_guaranteed()
    ensures { EveryRunIsGuaranteed }
{}

// So has every list of calls on a roster that open did not refuse.
pub fn every_opened_run_is_guaranteed()
    ensures { EveryOpenedRunIsGuaranteed }
{}

// No roster that refuses or leaves open what it could answer has the guarantee.
pub fn hollow_rosters_are_ruled_out()
    ensures { HollowRostersAreRuledOut }
{}

// No roster that answers holds for a rule that is false has it.
pub fn a_wrong_verdict_is_ruled_out()
    ensures { AWrongVerdictIsRuledOut }
{}

// Whatever is called, the records go on saying what is so.
pub fn records_stay_right()
    ensures { RecordsStayRight }
{}

// A settle of a laid rule comes to its verdict by the count of states.
pub fn settle_ends()
    ensures { SettleEnds }
{}

// Where path is not refused there is a path to write.
pub fn a_path_is_there()
    ensures { APathIsThere }
{}

// Every list of calls has answers.
pub fn every_list_is_answered()
    ensures { EveryListIsAnswered }
{}

// A call has one answer, but for the states that path writes, and leaves one roster.
pub fn answers_are_fixed()
    ensures { AnswersAreFixed }
{}
