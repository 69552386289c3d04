//! What is true of every run, whatever the program does. Each law is the contract of a function
//! that does nothing but name the laws it rests on.
ghost use Rattle.kd_machine.specs.Laws.{AcceptedEnds, HasOneEnd};

/// Every accepted program has a run over every message and every list of held names, within the
/// steps, the depth and the value length that it declares.
pub fn accepted_ends()
    ensures { AcceptedEnds }
{
    kd_token::laws::tokens_stand();
    kd_options::laws::messages_have_sizes();
}

/// All runs of a program over the same message and held names agree: they have the same truth
/// value, steps and peaks.
pub fn one_end()
    ensures { HasOneEnd }
{}
