// No code: what output by packet number has to do with unpadding the original packet (document 02, M-107); its definition is in specs/, its theorem in proofs/.
#![tactic(auto)]
