// Cases of short lists (document 02, wish 12), with no function: the table and its theorem are in specs/.
#![tactic(auto)]
