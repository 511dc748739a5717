// A path part as evaluation sees it.
use ctl::setwise::Operator;
use sets::set::StateSet;

// An operator, and the two sets that it stands on.
#[derive(Clone, Copy)]
pub struct Operands {
    pub operator: Operator,
    pub first: StateSet,
    pub second: StateSet,
}
