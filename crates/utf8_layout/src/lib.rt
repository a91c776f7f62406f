// The definition of well-formed UTF-8 (document 02, Ask 7), by the Unicode Standard's table of well-formed byte sequences, and what is proved of
// it. There is no function here: which strings have to be well formed stands with the parts that they are strings of.
#![tactic(auto)]
