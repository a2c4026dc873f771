//! Laws of the grammar, over every list of tokens and every text.
ghost use Rattle.std.specs.Prelude.{◌≡◌, ◌↔◌, ◌<◌, ◌≤◌, ℕ, Bool, false, List, length, Option, Result};
ghost use Rattle.ibp_algebra.specs.Polynomial.{Polynomial};
ghost use Rattle.mono_order.specs.declared.limits.TheConstants.{VARIABLES};
ghost use Rattle.poly_text.specs.declared.fault.TextFault.{TextFault};
ghost use Rattle.poly_text.specs.declared.limits.TheConstants.{DEPTH_LIMIT, NAME_LIMIT, POWER_LIMIT};
ghost use Rattle.poly_text.specs.Token.{Token};
ghost use Rattle.poly_text.specs.Spelling.{AreTokens};
ghost use Rattle.poly_text.specs.Tree.{Tree, IsText};
ghost use Rattle.poly_text.specs.Faults.{IsTokenFault};
ghost use Rattle.poly_text.specs.PolyText.{is_known, IsTextAnswer, IsNumberAnswer};
ghost use Rattle.poly_text.specs.Answer.{text_answer, number_answer};

/// Each text has its tokens, and no others.
pub fn tokens_of_a_text()
    ensures some { (bytes : List ℕ) → (ts : List (Token × ℕ)) × AreTokens 0 bytes ts }
    ensures one { (bytes : List ℕ) (ts us : List (Token × ℕ)) → AreTokens 0 bytes ts → AreTokens 0 bytes us → ts ≡ us }
{}

/// A byte that begins no token may stand nowhere.
pub fn stray_bytes_are_faults()
    ensures { (known : List ℕ → Bool) (front : List (Token × ℕ)) (at : ℕ) → IsTokenFault known front (Token.stray, at) (TextFault.Syntax at) }
{}

/// A name of more than 32 bytes stands for nothing.
pub fn long_names_are_unknown()
    ensures { (n : ℕ) (number : List ℕ → Option ℕ) (word : List ℕ) → n ≤ VARIABLES → NAME_LIMIT < length word → is_known n number word ≡ false }
{}

/// A text of the grammar has one tree.
pub fn one_tree()
    ensures { (ts : List (Token × ℕ)) (t u : Tree) → IsText ts t → IsText ts u → t ≡ u }
{}

/// Each text has one answer: its first fault of form, or where it has none the value of its tree or the
/// first fault of that.
pub fn answer_to_a_text()
    ensures text { (n : ℕ) (number : List ℕ → Option ℕ) (bytes : List ℕ) (answer : Result Polynomial TextFault)
        → (text_answer n number bytes ≡ answer) ↔ IsTextAnswer n number bytes answer }
    ensures number { (bytes : List ℕ) (answer : Result ℕ TextFault)
        → (number_answer bytes ≡ answer) ↔ IsNumberAnswer bytes answer }
{}

/// The limits of the format on one text: a name has at most 32 bytes, an exponent is at most 20, and at most
/// 64 parentheses are open at once.
pub fn limits_of_texts()
    ensures name { NAME_LIMIT ≡ 32 }
    ensures power { POWER_LIMIT ≡ 20 }
    ensures depth { DEPTH_LIMIT ≡ 64 }
{}
