// The paper's edge 7: what the arc program prints of its file, by the definitions. No code: the statements are in specs/, their proof in proofs/.
#![tactic(auto)]
