// The worked cases, jointly: verdicts and costs on two small models, and the one path that shows a failure.
ghost use Rattle.ctl.specs.Worked.{WorkedCases, ReadingsDiffer};

// All of them are as worked out by hand.
pub fn worked_cases()
    ensures { WorkedCases }
{}

// Three readings that would spoil a verdict are told from the right one by a case each.
pub fn readings_differ()
    ensures { ReadingsDiffer }
{}
