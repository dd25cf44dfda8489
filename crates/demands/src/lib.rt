// Nothing runs here: proofs/ says what the demands on the claims come to for the library's own promises.
#![tactic(auto)]
