//! Judges any bytes against what is linked.
#![tactic(auto)]

mod auditor;
mod spaces;
mod verdict;
mod walk;

pub use auditor::judge;
pub use verdict::Verdict;
