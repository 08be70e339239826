// What the programs write and read as text: answers in document 01's words, the lines of the trials, and volumes that stand in a text as
// numbers. No contract can speak of output, so the functions that only write promise nothing; they are proved safe and ending.
#![tactic(auto)]

pub mod line;
pub mod networks;
pub mod page;
pub mod say;
