#![tactic(auto)]

// Demands 1, 2 and 3 of the customer's notice, as theorems about what the entries answer: specs/. No functions.
