#![tactic(auto)]

// What a router gets that reads the messages: definitions and proofs alone.
