// What is delivered: the demands, said of the promises of the entries. Definitions and proofs alone; the code stands in the rooms below.
#![tactic(auto)]
