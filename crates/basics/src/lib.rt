#![tactic(auto)]

// The words that all definitions share, each with its laws; no code.
