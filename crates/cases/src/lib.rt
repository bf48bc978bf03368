// The bench cases of document 01 that are marked P, in one list, and the theorem about it. No code.
#![tactic(auto)]
