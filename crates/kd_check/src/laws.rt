//! What is true of every text that a place is looked for in. Each law is the contract of a function
//! that does nothing.
ghost use Rattle.std.specs.Prelude.{◌≡◌, ℕ, false, true, List, ◌∷◌, ◌++◌, map};
ghost use Rattle.std.specs.List.{AllByRecursion, list_all, list_any};
ghost use Rattle.kd_check.specs.Place.{after_white, has_key, is_closing, is_escaping, is_white, members, value_of_member};
ghost use Rattle.kd_check.specs.PlaceLaws.{IsInString, IsPaired, from_each, separated};

/// If the content of an object or an array is texts in which strings and brackets are paired, with
/// a comma before each but the first, then its members are the text from each of these on, behind
/// white space. It does not matter what is in their strings and brackets.
pub fn members_are_the_texts()
    ensures { (first : List ℕ) (others : List (List ℕ)) (closing : ℕ) (behind : List ℕ)
        → IsPaired false first → AllByRecursion (IsPaired false) others
        → is_closing closing ≡ true
        → members (separated first others (closing ∷ behind))
        ≡ map after_white (from_each first others (closing ∷ behind)) }
{}

/// A member that begins with a string has this key and no other, and its value follows the colon. A
/// key is looked for only if it has no escapes; the string may have some.
pub fn members_have_their_keys()
    ensures own { (key rest : List ℕ) → has_key key (34 ∷ (key ++ 34 ∷ rest)) ≡ true }
    ensures only { (key string rest : List ℕ) → list_any is_escaping key ≡ false
        → IsInString string → has_key key (34 ∷ (string ++ 34 ∷ rest)) ≡ true → key ≡ string }
    ensures value { (string gap rest : List ℕ) → IsInString string → list_all is_white gap ≡ true
        → value_of_member (34 ∷ (string ++ 34 ∷ (gap ++ 58 ∷ rest))) ≡ after_white rest }
{}
