//! Lemmas about integers and lists, which know nothing of points: the crates above cite them in their
//! proofs.
#![tactic(auto)]
