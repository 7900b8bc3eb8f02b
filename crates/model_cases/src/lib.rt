// The starred paper cases of document 01, proved from the machine's definition. There is no code here: the table and its
// one theorem stand in specs/.
#![tactic(auto)]
