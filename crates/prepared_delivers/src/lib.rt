// Point 3 of the request for a prepared mesh with a tree: laws alone.
#![tactic(auto)]
