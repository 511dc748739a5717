// What is proved of rule texts as such, whatever reads them.
ghost use Rattle.rule.specs.Claims.{OneFormula, OneFault, RefusedExactly};

// A text has at most one formula.
pub fn text_has_one_formula()
    ensures { OneFormula }
{}

// A text earns at most one fault.
pub fn text_has_one_fault()
    ensures { OneFault }
{}

// A text of lawful length earns a fault exactly if the grammar has no formula for it.
pub fn refused_exactly_without_a_formula()
    ensures { RefusedExactly }
{}
