//! The figures of the scope that are proved: entries of one list, and one lemma over it. The crate has no code.
#![tactic(auto)]
