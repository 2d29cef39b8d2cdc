//! Units and images that stand for them, which the checker finds by the definitions: rows/ holds them, and tools/agreement_rows writes their laws.
#![tactic(auto)]
