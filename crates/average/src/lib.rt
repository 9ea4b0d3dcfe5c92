// Vouchers by highest average: the definitions are in specs/, their laws in proofs/. There is no code here: that of `vouchers` is proved
// against it.
#![tactic(auto)]
