// What edits of a table can't do to the answers of `bounds_of`: statements and proofs, in specs/ and proofs/. See README.md.
#![tactic(auto)]
