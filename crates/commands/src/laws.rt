//! Laws of the definitions.

ghost use Rattle.std.specs.Prelude.{◌≡◌, ℕ, List, [], ◌∷◌, true, Some, codes};
ghost use Rattle.std.specs.Str.Parse.{digits_value};
ghost use Rattle.commands.specs.OneText.{OneText};
ghost use Rattle.commands.specs.Words.{command_of, is_number};
ghost use Rattle.commands.specs.WordLists.{listed, without_mark};
ghost use Rattle.commands.specs.declared.words.Command.TheVariants as command;

/// The lists of words of the table are commands, and every list of words means what the table says of it
/// without its first `--`. So no other list is a command, whatever options it has.
pub fn lists_are_commands()
    ensures identity { command_of (codes "identity" ∷ []) ≡ Some command.Identity }
    ensures plain { command_of (codes "plain" ∷ []) ≡ Some command.Plain }
    ensures basis { (number : List ℕ) → is_number number ≡ true
        → command_of (codes "basis" ∷ number ∷ []) ≡ Some (command.Basis (digits_value 10 number)) }
    ensures meet { (number : List ℕ) → is_number number ≡ true
        → command_of (codes "meet" ∷ number ∷ []) ≡ Some (command.Meet (digits_value 10 number)) }
    ensures cut { (number : List ℕ) → is_number number ≡ true
        → command_of (codes "cut" ∷ number ∷ []) ≡ Some (command.Cut (digits_value 10 number)) }
    ensures check { command_of (codes "check" ∷ []) ≡ Some command.Check }
    ensures fold { command_of (codes "fold" ∷ []) ≡ Some command.Fold }
    ensures drill { (number : List ℕ) → is_number number ≡ true
        → command_of (codes "drill" ∷ number ∷ []) ≡ Some (command.Drill (digits_value 10 number)) }
    ensures every_list { (words : List (List ℕ))
        → command_of words ≡ listed (without_mark words) }
{}

/// A file determines the text that a command writes of it, and the number of a drill the text of the drill.
pub fn one_text()
    ensures { OneText }
{}
