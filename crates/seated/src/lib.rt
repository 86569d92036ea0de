//! Placed jobs as a run over lists has them: what they ask of the engines, and when a placement can be late; the statements in `specs/`, and their proofs in `proofs/`.
#![tactic(auto)]
