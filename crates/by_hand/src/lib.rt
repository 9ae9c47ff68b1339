// The examples that document 01 gives to be checked by hand and proved: one statement over a list of
// them, in proofs/ByHand.antt. No code of its own.
#![tactic(auto)]
