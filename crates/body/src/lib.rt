// Section 5.4 of the standard, the order and the body, as definitions and laws: see specs/. Its functions are those of `body_value` and `body_walk`.
#![tactic(auto)]
