// Lists of calls that are played on the machine at any window, what refutes each part of the two rules, and three short lists that break
// the agreement rule at windows just below the bound (02, wish 7), as a table with its one theorem. There is no code here.
#![tactic(auto)]
