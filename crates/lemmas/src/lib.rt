//! Words and lemmas on numbers, lists and bytes that several crates share; no code. Its `proofs/`
//! are the only ones that other crates import (CONTRIBUTING, "Edit").
#![tactic(auto)]
