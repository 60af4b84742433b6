// No code: laws that the pages name and that no proof here cites since arrays are made by closures and the book is lent whole.
#![tactic(auto)]
