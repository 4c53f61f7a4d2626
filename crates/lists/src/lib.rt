// Sums over lists, arrays filled from the front, what every element passes, and joined texts: definitions in specs/ and laws in proofs/, and no code.
#![tactic(auto)]
