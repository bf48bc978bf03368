// The user's demands as theorems about whole calls. Definitions and theorems only.
#![tactic(auto)]
