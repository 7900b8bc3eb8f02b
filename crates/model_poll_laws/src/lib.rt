// Laws about the definitions of polls (`model_poll`): specs/. No code.
#![tactic(auto)]
