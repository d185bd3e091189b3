#![tactic(auto)]

// Document 01's bench: definitions in specs/, one statement over them in proofs/; it has no code.
