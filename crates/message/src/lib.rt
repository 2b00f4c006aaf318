// How a message is read and written by any table of fields stands in specs/, and what is proved of it in proofs/. There is no code here.
#![tactic(auto)]
