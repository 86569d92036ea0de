//! Strings of marks that repeat without end: the definitions and laws in `specs/`.
#![tactic(auto)]
