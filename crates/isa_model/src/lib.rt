//! Definitions of the words of the Power ISA, their arithmetic, the table of the 32-bit integer instructions, the forms of
//! instruction words and the ranges of operands.
#![tactic(auto)]
