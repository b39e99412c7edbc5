// Little-endian bytes and the numbers that they are, which the functions for C and the program share.
#![tactic(auto)]

pub mod bytes;
