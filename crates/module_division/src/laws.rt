//! Laws of the division by a list of monic vectors, over every order of terms and every limit on degrees. Each
//! function has an empty body.
ghost use Rattle.std.specs.Prelude.{◌≡◌, ℕ, List};
ghost use Rattle.std.specs.List.{All};
ghost use Rattle.mono_order.specs.declared.limits.TheConstants.{VARIABLES};
ghost use Rattle.module_vec.specs.ModuleVector.{ModuleVector, IsVector, IsMonicVector};
ghost use Rattle.module_vec.specs.Division.{Division, DividesTo, Remainder, IsRemainder};

use mono_order::TermOrder;

/// A division has at most one remainder, and it has none where it is over-degree.
pub fn unique_division<O: TermOrder>()
    ensures { (list : List ModuleVector) (v : ModuleVector) (limit : ℕ) (first second : Division) → DividesTo O.order limit list v first → DividesTo O.order limit list v second → first ≡ second }
{}

/// A division ends: it has a remainder, or it is over-degree.
pub fn some_division<O: TermOrder>()
    ensures { (list : List ModuleVector) (v : ModuleVector) (limit : ℕ) → All (IsMonicVector O.order VARIABLES) list → IsVector O.order VARIABLES v → (division : Division) × DividesTo O.order limit list v division }
{}

/// The remainder is the textbook's: no lead of the list divides a term of it, and the vector minus the remainder is a
/// sum of multiples of the list, none of which has a term above the vector's lead.
pub fn remainder<O: TermOrder>()
    ensures { (list : List ModuleVector) (v r : ModuleVector) (limit : ℕ) → All (IsMonicVector O.order VARIABLES) list → IsVector O.order VARIABLES v → DividesTo O.order limit list v (Remainder r) → IsRemainder O.order VARIABLES list v r }
{}
