// Theorems and no code: the plain engine's answers on the events of a trace are those of an account. They are in proofs/Replay.antt.
#![tactic(auto)]
