// Definitions and theorems only: specs/ says what trees, automata and runs are, proofs/ what holds of them.
#![tactic(auto)]
