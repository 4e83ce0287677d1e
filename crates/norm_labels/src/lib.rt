// Inner to normal files and merging: a system by its labels, and on other labels, with the laws. No code.
#![tactic(auto)]
