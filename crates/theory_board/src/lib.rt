// The past of the machine by epochs; what a process' place in its walk tells of it; the registers and processes of a session against it.
// There is no code here: the theorems stand in specs/.
#![tactic(auto)]
