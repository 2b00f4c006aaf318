// The rules of the day stand in specs/, and what is proved of them in proofs/. There is no code here.
#![tactic(auto)]
