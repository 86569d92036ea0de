//! What every plan of a job under a choice asks, computed from the job's nodes: the definitions in `specs/`, and the lemmas in `proofs/` that they are that.
#![tactic(auto)]
