// What taking a record is: definitions in specs/, their laws in proofs/. There is no code.
#![tactic(auto)]
