// What the walks by hand of functions that are lent a struct and of functions that lend one share, over whatever is lent: no code.
#![tactic(auto)]
