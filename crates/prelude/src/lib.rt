// No code: the names that proofs take from the toolchain's libraries, passed on in one place (proofs/Prelude.antt).
#![tactic(auto)]
