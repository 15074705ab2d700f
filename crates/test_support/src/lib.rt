//! What the programs that run the calls share: standard input, the numbers of a case, and answers
//! in print. What they print is compared with stored output.
#![tactic(auto)]

pub mod cases;
pub mod input;
pub mod print;
