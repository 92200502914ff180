// The cases that document 01 marks M, proved over the definitions: see specs/.
#![tactic(auto)]
