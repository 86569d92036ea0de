//! The run of a board: what arrivals and ticks do to placed jobs, and when something can be late. Definitions and theorems in `specs/`, their proofs in `proofs/`.
#![tactic(auto)]
