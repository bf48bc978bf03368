// Lists in the definitions: made by index, tested, counted and cut. Definitions and laws only.
#![tactic(auto)]
