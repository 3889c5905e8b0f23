// Demand 3 as the request has it, drawn from compile's contract alone. Document 01, "Calls". Definitions and their laws; no code.

#![tactic(auto)]
