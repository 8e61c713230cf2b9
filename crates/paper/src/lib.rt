// No code: the published model of documents 000 and 004 (specs/), and that the monitor's refines it (proofs/).
#![tactic(auto)]
