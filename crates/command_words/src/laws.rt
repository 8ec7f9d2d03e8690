//! Laws over the definitions alone. Each is the contract of a function that does nothing.
ghost use Rattle.std.specs.Prelude.{◌≡◌, List, Some};
ghost use Rattle.command_words.specs.Asked.{Asked, HasNames, asked};
ghost use Rattle.h263_types.specs.Texts.{Text};

/// Where words are a command, the words by which its roles are attached are all there.
pub fn names_are_given()
    ensures { (words : List Text) (a : Asked) → asked words ≡ Some a → HasNames a }
{}
