// The theorem of short lists: going on from the first gives each legal list once and nothing else (02, wish 12). Its calls are the
// functions' own, by their contracts. No code: specs/.
#![tactic(auto)]
