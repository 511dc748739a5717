// A rule as it is kept, with its record, and the table of them.
ghost use Rattle.roster.specs.Plain.{Negates};

use guarantee::Record;
use rule::tree::Rule;

// A rule and its negation, both in normal form.
#[derive(Drop)]
pub struct Trees {
    pub(crate) rule: Rule,
    pub(crate) negation: Rule,
    ghost matched: { Negates negation rule },
}

// A rule that is laid, and what is recorded of it.
#[derive(Drop)]
pub struct Laid {
    pub(crate) trees: Trees,
    pub(crate) said: Record,
}

// The rules laid, by their numbers. No record is handed out to be changed: one at a time is changed in place. No
// `Model` of it as a list: nobody outside this crate sees it as a value.
#[derive(Drop)]
pub struct Records {
    pub(crate) items: Vec<Laid>,
}
