// Theorems and no code: a month's totals over the list of all figures that were added are what adding them one by one gives. The totals are in specs/Totals.antt, the theorems in proofs/Theorems.antt.
#![tactic(auto)]
