// The image of a contract, and that it monitors the contract. Document 01, "Image and row machine" and "Calls". Definitions and their laws; no
// code.

#![tactic(auto)]
