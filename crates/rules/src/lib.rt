// The rules of source kinds: definitions and their lemmas alone.
#![tactic(auto)]
