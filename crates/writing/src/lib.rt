// No code yet: a book's written filing as a definition, and the laws of writing and reading it.
#![tactic(auto)]
