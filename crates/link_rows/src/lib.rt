//! Units and the images that they are linked to, which the checker computes: the rows are those of agreement_rows, and tools/link_rows writes their laws.
#![tactic(auto)]
