//! Laws of Gröbner bases, over every order of terms. Each function has an empty body.
ghost use Rattle.std.specs.Prelude.{◌≡◌, ◌≢◌, ◌+◌, ◌≤◌, ℕ, length, List, []};
ghost use Rattle.std.specs.List.{All};
ghost use Rattle.mono_order.specs.declared.limits.TheConstants.{VARIABLES};
ghost use Rattle.pair_queue.specs.declared.order.PairOrder.{PairOrder};
ghost use Rattle.module_vec.specs.ModuleVector.{ModuleVector, IsVector, IsMonicVector, IsMember};
ghost use Rattle.module_basis.specs.GroebnerBasis.{AllPairsReduce, IsGroebnerBasis, IsReducedBasis, IsLowMember, low_elements};
ghost use Rattle.module_basis.specs.PlainRun.{RunEnd, RunsTo, Done};

use mono_order::TermOrder;

/// Buchberger's theorem: where all pairs of a list have standard representations, it is a Gröbner basis of
/// the module that it generates.
pub fn buchberger<O: TermOrder>()
    ensures { (list : List ModuleVector) → All (IsMonicVector O.order VARIABLES) list → AllPairsReduce O.order VARIABLES list → IsGroebnerBasis O.order (IsMember VARIABLES list) list }
{}

/// The list of a done run is a Gröbner basis of the module of its generators, in whatever order its pairs were taken.
pub fn done_run<O: TermOrder>()
    ensures { (generators : List ModuleVector) (by : PairOrder) (limit budget taken : ℕ) (list : List ModuleVector) → All (IsVector O.order VARIABLES) generators → All (λ g. g ≢ []) generators → RunsTo O.order by limit generators budget (Done list taken) → IsGroebnerBasis O.order (IsMember VARIABLES generators) list }
{}

/// The vectors of a basis whose leads are low are a basis of the members without a high component.
pub fn elimination<O: TermOrder>()
    ensures { (generators list : List ModuleVector) → All (IsMonicVector O.order VARIABLES) list → IsGroebnerBasis O.order (IsMember VARIABLES generators) list → IsGroebnerBasis O.order (IsLowMember O.high (IsMember VARIABLES generators)) (low_elements O.high list) }
{}

/// At most one list is the reduced basis of the members without a high component.
pub fn unique_basis<O: TermOrder>()
    ensures { (generators first second : List ModuleVector) → IsReducedBasis O.order VARIABLES (IsLowMember O.high (IsMember VARIABLES generators)) first → IsReducedBasis O.order VARIABLES (IsLowMember O.high (IsMember VARIABLES generators)) second → first ≡ second }
{}

/// A run ends in one way.
pub fn unique_end<O: TermOrder>()
    ensures { (generators : List ModuleVector) (by : PairOrder) (limit budget : ℕ) (first second : RunEnd) → RunsTo O.order by limit generators budget first → RunsTo O.order by limit generators budget second → first ≡ second }
{}

/// The run of generators that are not zero ends.
pub fn some_end<O: TermOrder>()
    ensures { (generators : List ModuleVector) (by : PairOrder) (limit budget : ℕ) → All (IsVector O.order VARIABLES) generators → All (λ g. g ≢ []) generators → (end : RunEnd) × RunsTo O.order by limit generators budget end }
{}

/// A done run takes at most as many pairs as its budget, and each adds at most one element to those of the generators.
pub fn counts<O: TermOrder>()
    ensures { (generators list : List ModuleVector) (by : PairOrder) (limit budget taken : ℕ) → RunsTo O.order by limit generators budget (Done list taken) → (taken ≤ budget) × (length list ≤ length generators + taken) }
{}
