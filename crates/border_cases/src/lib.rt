// Definitions and theorems only; there is no code. Demand 3 and the laws beside it used where they end, on jobs of
// bytes.
#![tactic(auto)]
