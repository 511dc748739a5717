// Row texts and channel files with the answers that they must get, as tables.
#![tactic(auto)]

#[cfg(test)]
mod files;
#[cfg(test)]
mod texts;
