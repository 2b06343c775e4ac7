//! What flat code of a method is, by itself and with callees in place of their calls: definitions that inline_expand's code meets and
//! that expanded_runs's laws are about. There is no code here.
#![tactic(auto)]
