//! Whole runs of any load with one lane, as definitions that the checker computes; rows of the meaning and of the machine stand on them.
#![tactic(auto)]
