// No code: document 01 as definitions (specs/), and the theorems about them (proofs/).
#![tactic(auto)]
