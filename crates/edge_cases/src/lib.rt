// Document 01, 'At the edges': the cases marked (proved), one list in specs/ under one statement in proofs/. There is no code.
#![tactic(auto)]
