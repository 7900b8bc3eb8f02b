// Laws about the board report's definition, with no function: the cases that the code goes by, and the longest report.
#![tactic(auto)]
