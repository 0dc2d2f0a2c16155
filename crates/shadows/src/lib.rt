// Which vertex shadows which in an octant, and what the octant lists are: definitions and laws, no code.
#![tactic(auto)]
