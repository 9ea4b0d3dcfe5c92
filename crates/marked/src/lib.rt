// Document 01's thirteen marked cases, as one table under one statement: specs/Cases.antt and proofs/Marked.antt. There is no code here.
#![tactic(auto)]
