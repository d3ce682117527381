//! Tests of sheets, against answers and figures that were worked out by hand.
#![tactic(auto)]

#[cfg(test)]
mod cuts;
#[cfg(test)]
mod notes;
#[cfg(test)]
mod sends;
