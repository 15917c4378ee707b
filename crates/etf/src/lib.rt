// How a job is planned and how far from the best the plan can be, as definitions (specs/) and theorems (proofs/). No functions.
#![tactic(auto)]
