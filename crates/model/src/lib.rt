// What the paper means: definitions and theorems, in specs/ and proofs/. See README.md.
#![tactic(auto)]
