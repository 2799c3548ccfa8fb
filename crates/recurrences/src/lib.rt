// The recurrences behind the polynomials, and the theorem that they give the true derivatives. No code: definitions and theorems.

#![tactic(auto)]
