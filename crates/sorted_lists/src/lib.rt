//! Lists in an order: there is no code here, but what is proved of them, for the crates that sort.
//!
//! A list that rises does so with one more at its place and with some taken away (`Rising.antt`). To
//! sort elements of different keys is to put each in its place (`PlacedLemmas.antt`).
#![tactic(auto)]
