#![tactic(auto)]
// What is promised, on one page: specs/Promises.antt names each promise over the definitions, and specs/Starred.antt has the starred settled examples of document 01. It has no functions.
