// A text line by line, and the report that has a row for each line.
#![tactic(auto)]

pub mod cut;
pub mod report;
