ghost use Rattle.std.specs.Prelude.{◌≡◌, Bool, Some};
ghost use Rattle.kd_listing.specs.Leases.{word_of_live, word_of_state};
ghost use Rattle.kd_rows.specs.declared.row.State.{State};

use kd_rows::State;

// Returns the state that a word stands for.
pub(crate) fn state_in(word: &[u8]) -> Option<State>
    ensures { (state : State) → word.now ≡ word_of_state state → result ≡ Some state }
{
    match word {
        b"Offered" => Some(State::Offered),
        b"Bound" => Some(State::Bound),
        b"Released" => Some(State::Released),
        b"Declined" => Some(State::Declined),
        _ => None,
    }
}

// Reports whether a word is the one for a lease that is live.
pub(crate) fn is_live(word: &[u8]) -> bool
    ensures { (live : Bool) → word.now ≡ word_of_live live → result ≡ live }
{
    word == b"live".as_slice()
}
