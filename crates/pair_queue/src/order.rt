//! The order in which a run takes its pairs.

ghost use Rattle.std.specs.Prelude.{◌≡◌, get_or};
ghost use Rattle.pair_queue.specs.Pairs.{pair_degree};

use ibp_base::List;
use mono_order::Term;

/// The order in which a run takes its pairs. The normal strategy of Buchberger is by terms; by degrees it is that of
/// a homogeneous module, where the components have degrees with which the generators are homogeneous.
#[derive(Drop)]
pub enum PairOrder {
    /// By the least common multiple, in the order of terms.
    Terms,
    /// By the degree of the least common multiple, and then as by terms. The degree of a term is that of its monomial
    /// and that of its component, which is the item of this list at the number of the component, and 0 past its end.
    Degrees(List<u16>),
}

impl PairOrder {
    /// The degree by which a pair with this least common multiple is taken, the same for all where pairs go by terms.
    pub fn degree(&self, lcm: &Term) -> u32
        ensures { result ≡ pair_degree self.now lcm.now }
    {
        match self {
            PairOrder::Terms => 0,
            PairOrder::Degrees(degrees) => {
                let of_component = component_degree(degrees.as_slice(), lcm.component);
                u32::from(lcm.monomial.degree()) + u32::from(of_component)
            }
        }
    }
}

fn component_degree(degrees: &[u16], component: u8) -> u16
    ensures { result ≡ get_or degrees.now component 0 }
{
    match degrees.get(usize::from(component)) {
        Some(degree) => *degree,
        None => 0,
    }
}
