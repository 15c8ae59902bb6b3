//! Lemmas on tests, on members of lists, and on the first element that passes a test.
//!
//! The crate has no code. What std's `All`, `Contains`, `map`, `flat_map` and `find` leave open,
//! and several crates need, is proved once here. Every lemma is of all lists or of all tests.
#![tactic(auto)]
