// The grammar of units and wires files: what a whole file says, and the laws that tie it to the one text of what it says. It has no code.
#![tactic(auto)]
