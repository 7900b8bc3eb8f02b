// What the sheet writer and the reader make of each other. There is no code here: the theorems stand in specs/.
#![tactic(auto)]
