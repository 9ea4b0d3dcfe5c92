// The rows of a compound table: the definitions are in specs/, their laws in proofs/. There is no code here: `compound` is proved against it.
#![tactic(auto)]
