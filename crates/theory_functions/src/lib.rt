// The calls of the agreement rule and of the rules of polls and of houses are the functions' own: what `promised`, `poll_promised` and
// `house_promised` say of each is what the function's contract ensures, and the contract requires nothing. No code: specs/.
#![tactic(auto)]
