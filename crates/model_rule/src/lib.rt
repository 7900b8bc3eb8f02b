// The agreement rule (document 01, "The agreement rule") and the rule of polls (02, wish 6) as statements: specs/. No code and no proof.
#![tactic(auto)]
