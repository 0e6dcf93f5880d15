// The three promises of docs/RULES.md and why the definition meets them: what is promised stands in specs/, the laws of whole requests and answers in
// proofs/. There is no code here.
