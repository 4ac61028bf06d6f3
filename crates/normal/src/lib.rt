// The clean form of a sheet: no code, only what it is and what follows from that (specs/, proofs/).
#![tactic(auto)]
