// Who gets unit number t: the definitions are in specs/, their laws in proofs/. There is no code here: the book's is proved against it.
#![tactic(auto)]
