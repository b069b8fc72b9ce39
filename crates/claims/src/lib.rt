// The page of claims: types in specs/Claims, proofs in proofs/Page. No code.
#![tactic(auto)]
