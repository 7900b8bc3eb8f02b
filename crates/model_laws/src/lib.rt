// Laws about the definitions of model, those about its registers one by one among them. There is no code here: the theorems stand in
// specs/.
#![tactic(auto)]
