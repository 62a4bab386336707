//! Why no drive is better than what the components of the product graph offer. The crate has no code: its specs say what
//! a drive is and what a component offers, its proofs show the bound.
#![tactic(auto)]
