// Definitions and theorems only; there is no code. A run from the start on, step by step, and what demand 3 says of it.
#![tactic(auto)]
