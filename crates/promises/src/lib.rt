// No code: what the contracts of the monitor's calls say together (specs/), and that they do (proofs/).
#![tactic(auto)]
