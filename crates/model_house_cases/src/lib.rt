// Cases of houses (document 02, wish 11), each proved of the definitions, by computation: in specs/ alone.
#![tactic(auto)]
