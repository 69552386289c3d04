//! What is true of every program that has a file, and of all bytes. Each law is the contract of a
//! function that does nothing.
ghost use Rattle.kd_token.specs.Laws.{HaveOneFault, TokensStand};

/// Each token of a program has operands that fit their bytes, and each path from it leads to a
/// later token or to the program's end.
pub fn tokens_stand()
    ensures { TokensStand }
{}

/// Bytes that are not a token file have only one first fault, in kind and place.
pub fn one_first_fault()
    ensures { HaveOneFault }
{}
