//! Readings and resets of a live window, one after the other, for the program that runs it: each
//! call by value and in place, compared, counted and printed. What is printed is compared with the
//! stored output of test_live.
#![tactic(auto)]

pub mod answer;
pub mod report;
pub mod run;
pub mod tally;
pub mod windows;
