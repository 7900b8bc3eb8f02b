// The counting argument: two values cannot both be written to the register of a round in which one of them was committed.
// There is no code here: the theorems stand in specs/.
#![tactic(auto)]
