//! What written code is made of, and the code that makes objects which were kept in locals: definitions that materialise's code meets and
//! that plan_flow's definition of written code uses. There is no code here.
#![tactic(auto)]
