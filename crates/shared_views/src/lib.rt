//! What a word that threads share keeps of each of its seats: lists of parts, sums over them, and
//! facts on each of them.
#![tactic(auto)]
