// What a user of the bounds and of the port has together: a statement and its proof, in specs/ and proofs/. See README.md.
#![tactic(auto)]
