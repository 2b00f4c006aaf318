// The saved day (02, 2) stands in specs/, and what is proved of it in proofs/. There is no code here.
#![tactic(auto)]
