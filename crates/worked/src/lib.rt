//! Worked cases of loading a job: the statement in `specs/`, and its proof in `proofs/`.
#![tactic(auto)]
