// Laws of the sheet writer's definition: specs/. No code.
#![tactic(auto)]
