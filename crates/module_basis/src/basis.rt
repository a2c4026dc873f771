ghost use Rattle.std.specs.Prelude.{◌≡◌, ◌^◌, ◌<◌, length};
ghost use Rattle.std.specs.List.{All};
ghost use Rattle.mono_order.specs.declared.limits.TheConstants.{VARIABLES};
ghost use Rattle.module_vec.specs.ModuleVector.{IsMember, IsMonicVector};
ghost use Rattle.module_basis.specs.GroebnerBasis.{IsGroebnerBasis};

use module_vec::Vector;
use mono_order::TermOrder;
use std::marker::Model;

/// A Gröbner basis that a done run gave: monic vectors, in the order in which the run added them.
#[derive(Drop)]
pub struct Basis<O: TermOrder> {
    elements: Vec<Vector<O>>,
    pairs_taken: u64,
}

impl<O: TermOrder> Model for Basis<O> {
    ghost use Rattle.std.specs.Prelude.{◌^◌, ◌<◌, length};
    ghost use Rattle.std.specs.List.{All};
    ghost use Rattle.mono_order.specs.declared.limits.TheConstants.{VARIABLES};
    ghost use Rattle.module_vec.specs.ModuleVector.{IsMember, IsMonicVector};
    ghost use Rattle.module_basis.specs.GroebnerBasis.{BasisValue, basis_value, IsGroebnerBasis};

    ghost Value = { BasisValue };

    ghost view = { λ b. basis_value b.elements.items b.pairs_taken };

    ghost invariant = { λ b. IsGroebnerBasis O.order (IsMember VARIABLES b.elements.items) b.elements.items × All (IsMonicVector O.order VARIABLES) b.elements.items × (length b.elements.items < 2 ^ 32) };
}

impl<O: TermOrder> Basis<O> {
    // The basis of these elements.
    pub(crate) fn of(elements: Vec<Vector<O>>, pairs_taken: u64) -> Basis<O>
        requires basis { IsGroebnerBasis O.order (IsMember VARIABLES elements.items) elements.items }
        requires monic { All (IsMonicVector O.order VARIABLES) elements.items }
        requires few { length elements.items < 2 ^ 32 }
        ensures elements { result.elements ≡ elements.items }
        ensures taken { result.taken ≡ pairs_taken }
    {
        Basis {
            elements,
            pairs_taken,
        }
    }

    /// The vectors: the generators, each made monic, and then what the pairs added.
    pub fn elements(&self) -> &[Vector<O>]
        ensures same { result.now ≡ self.now.elements }
        ensures basis { IsGroebnerBasis O.order (IsMember VARIABLES self.now.elements) self.now.elements }
        ensures monic { All (IsMonicVector O.order VARIABLES) self.now.elements }
        ensures few { length self.now.elements < 2 ^ 32 }
    {
        &self.elements
    }

    /// How many pairs the run took.
    pub fn pairs_taken(&self) -> u64
        ensures { result ≡ self.now.taken }
    {
        self.pairs_taken
    }
}
