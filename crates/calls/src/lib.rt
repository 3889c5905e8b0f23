// Begin, step, run and decide: their tests, their replies and what they leave in a state. Document 01, "Calls" and "Replies that refuse";
// document 02, "Stop reading once it is decided". Definitions and their laws; no code.

#![tactic(auto)]
