// The paper cases of polls (document 02, wish 6), proved from the definition of the poll machine. There is no code here: the table and its
// one theorem stand in specs/.
#![tactic(auto)]
