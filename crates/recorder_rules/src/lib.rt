//! What recorders keep of the traces of runs, and what their books tell: totals, loops, counts and pairs.
//!
//! A recorder of counts is a list of spans, the least and the greatest of how often something was visited; a
//! recorder of pairs says which two nodes of a scope a run visits in one iteration of it. For each there is one
//! record of what it keeps, covers and answers (`total_recording`, `loop_recording`, `count_recording`,
//! `pair_recording`), the proof that the laws of `Recorder` of `domain_core` hold of it, and what a book tells of
//! every run that was collected. Pairs are also said as bits in words, since code keeps them so. These are
//! definitions with their laws, and nothing that runs.
#![tactic(auto)]
