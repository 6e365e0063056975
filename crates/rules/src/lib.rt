// The circuit as definitions, and demand 3 proved of them: specs/ and proofs/ hold all of it, there is no code here.
#![tactic(auto)]
