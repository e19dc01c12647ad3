//! When code with data does what a program does: definitions alone, above the language of programs
//! and the language of code, which know nothing of each other.
#![tactic(auto)]
