// Linear arithmetic over the integers, maxima, limits, halves and parity. Definitions and laws only.
#![tactic(auto)]
