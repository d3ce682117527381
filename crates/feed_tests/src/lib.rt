//! Tests of the feed, its listing and its report, against bytes and lines that were written apart from the code.
#![tactic(auto)]

#[cfg(test)]
mod fields;
#[cfg(test)]
mod limits;
#[cfg(test)]
mod lines;
#[cfg(test)]
mod reader;
