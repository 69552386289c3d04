//! What is true of the counts, whatever the program does. Each law is the contract of a function
//! that does nothing.
ghost use Rattle.kd_pools.specs.Laws.{FreeIsOffered};

/// An address of a pool counts as free if and only if a new client that asks for it is offered it.
pub fn free_is_offered()
    ensures { FreeIsOffered }
{}
