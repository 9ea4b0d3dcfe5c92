// One-off sharing by largest remainder: the definitions are in specs/, their laws in proofs/. There is no code here: sharing's is proved
// against it.
#![tactic(auto)]
