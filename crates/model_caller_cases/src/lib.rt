// The paper cases of the two callers (02, wish 9), with no function: the table and its theorem are in specs/.
#![tactic(auto)]
