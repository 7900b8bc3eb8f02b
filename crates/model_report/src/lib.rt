// The board report as a definition: specs/. No code.
#![tactic(auto)]
