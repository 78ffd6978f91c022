// Fades that are joined (specs/): what may be joined into one colour, and where that stops. No code.
#![tactic(auto)]
