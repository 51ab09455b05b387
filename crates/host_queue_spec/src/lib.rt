#![tactic(auto)]
// A queue for the C host: in specs/ the marks in bytes, what the two host calls owe, and both statements over lists of them; the laws are in proofs/. The functions are those of `host_queue`.
