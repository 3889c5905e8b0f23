// Contracts: what they mean on a list of periods. Document 01, "Expressions" and "Meaning of clauses". Definitions and their laws; no code.

#![tactic(auto)]
