// Lists of calls and the claim about them (demand 3). Definitions and proofs only, no code.
#![tactic(auto)]
