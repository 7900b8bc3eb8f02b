// General lemmas that name nothing of this project. There is no code here: the theorems stand in specs/.
#![tactic(auto)]
