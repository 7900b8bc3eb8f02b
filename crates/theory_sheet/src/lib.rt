// What the agreement rule says of sheets, and contested as the number of marked rounds. There is no code here: the theorems stand in
// specs/.
#![tactic(auto)]
