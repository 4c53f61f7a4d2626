// The book behind the two sums, and the theorem that every list of calls keeps them: definitions and proofs, and no code.
#![tactic(auto)]
