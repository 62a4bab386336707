//! Tests, sums and bits of numbers, for every crate above. The crate has no code.
#![tactic(auto)]
