// Two ports in a row, the second fed by the first: statements and their proofs, in specs/ and proofs/. See README.md.
#![tactic(auto)]
