// The sheet writer as a definition: specs/. No code.
#![tactic(auto)]
