//! What is true of every explanation. The law is the contract of a function that does nothing.
ghost use Rattle.kd_explain.specs.Laws.{Explained};

/// The explanation is the decision: the checks that are told of a message are those that its rule
/// makes, in their order. The message passes all of them but at most the last, and it ends as the
/// line of that check says, or as its rule does; and that is what is decided for it.
pub fn explained()
    ensures { Explained }
{
    kd_lease::laws::ends_decide();
}
