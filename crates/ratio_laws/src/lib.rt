// What follows from the rules of rounding, for any format of IEEE 754, in proofs/: a file bears the name of what it says.
//
//   OneValue       a number with a sign is one value of a format
//   Again          what is rounded rounds to itself
//   LeadingDigits  the leading binary digits of a quotient round as it does, if the last tells whether something is left
//   Exactly        quotients and products of floats whose values are known, rounded once; the floats that are powers of two
//   Scaled         a fraction by way of a whole number that rounds as it does, times a power of two
#![tactic(auto)]
