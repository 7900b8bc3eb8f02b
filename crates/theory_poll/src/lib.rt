// The rule of polls (document 02, wish 6) is proved in specs/. No code.
#![tactic(auto)]
