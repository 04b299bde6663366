// Document 01, "Reference calls": the programs stand in specs/, the theorems in proofs/. No function is here.
#![tactic(auto)]
