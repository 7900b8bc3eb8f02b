// What the walks by hand of functions with references share: no code.
#![tactic(auto)]
