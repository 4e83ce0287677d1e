// No code: the two forms of a normal file, as definitions, and the laws of moving a file from one to the other.
#![tactic(auto)]
