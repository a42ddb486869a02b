// The loop as plain values, and what its calls come to: definitions and their lemmas alone.
#![tactic(auto)]
