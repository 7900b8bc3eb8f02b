// The agreement rule (document 01; demand 3 of the order): of the machine at any window, and of whole lists of calls. There is no code
// here: the statement stands in model_rule, the proof in specs/.
#![tactic(auto)]
