//! Laws of the words of `system`, and of what is written, each the contract of a function that does nothing.
ghost use Rattle.std.specs.Prelude.{◌≡◌, ◌≤◌, ℕ, List, [], ◌∷◌, Ok, true, codes, length};
ghost use Rattle.system_check.specs.Rightness.{IsRight};
ghost use Rattle.system_check.specs.declared.limits.TheConstants.{TEXT_LIMIT};
ghost use Rattle.commands.specs.Causes.{Given, given_of, IsTextOf};
ghost use Rattle.commands.specs.Words.{is_number};
ghost use Rattle.commands.specs.declared.words.Command.TheVariants as command;
ghost use Rattle.top_call.specs.Words.{workers_in, workers_of};

/// The words `system --workers W` ask for W workers where W is one or two digits with a value from 1 to the most that a
/// desk has, and with other digits for none.
pub fn system_asks_for_workers()
    ensures { (word : List ℕ) → is_number word ≡ true → workers_of (codes "system" ∷ codes "--workers" ∷ word ∷ []) ≡ workers_in word }
{}

/// The text that `plain` and `system` write of a file is right for its family, where it is no longer than a text that is
/// checked. So `check` says yes to it.
pub fn written_texts_are_right()
    ensures { (input text : List ℕ) (given : Given) → given_of command.Plain input ≡ Ok given → IsTextOf command.Plain given text
        → length text ≤ TEXT_LIMIT → IsRight given.family text }
{}
