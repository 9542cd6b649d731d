// What loops compute, in specs/, and the laws of it, in proofs/. There is no code.
#![tactic(auto)]
