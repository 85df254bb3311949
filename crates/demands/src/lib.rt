// Demands 1 and 3 of the exported calls, by what their contracts say: what a host hears of a call, that a refused one changes nothing, and the book.
#![tactic(auto)]
