// The valve set for a discharge: the definitions, in specs/, and the laws of them, in proofs/. There is no code.
#![tactic(auto)]
