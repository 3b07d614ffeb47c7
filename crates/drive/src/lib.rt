#![tactic(auto)]
// Acts, the driver that runs them, and laws of every run: definitions and proofs alone, for the crates above.
