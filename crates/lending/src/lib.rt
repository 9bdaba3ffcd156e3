// How a function that holds or lends a slice was walked by hand stood here: what is known of a value that is held, a slice that is lent again, a local array
// that is lent, what is given away for good. The toolchain now proves such functions by itself, so that nothing is left to say.
#![tactic(auto)]
