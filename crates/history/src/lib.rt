// No code: the plain history of a list of calls, and the theorem that the book keeps to it.
#![tactic(auto)]
