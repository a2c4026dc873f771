use ibp_base::List;
use mono_order::{Monomial, Term, ZeroDominates};
use pair_queue::{Pair, PairOrder, PairQueue};
use std::test::Fail;

#[test]
fn ties_go_to_the_lower_second_number_and_then_to_the_lower_first(
    rt: HostRuntime,
) -> Result<(), Fail> {
    let lcm = Term {
        component: 0,
        monomial: Monomial::variable(1),
    };
    let pair = |first, second| Pair { first, second, lcm };
    let mut queue = PairQueue::<ZeroDominates>::empty(rt.alloc(), PairOrder::Terms);
    queue.push(pair(2, 3))?;
    queue.push(pair(1, 3))?;
    queue.push(pair(1, 2))?;
    for (first, second) in [(1, 2), (1, 3), (2, 3)] {
        assert!(rt; queue.contains(first, second));
        assert!(rt; queue.pop() == Some(pair(first, second)));
        assert!(rt; !queue.contains(first, second));
    }
    assert!(rt; queue.pop().is_none());
    Ok(())
}

#[test]
fn by_degrees_a_pair_at_a_lower_component_may_come_later(rt: HostRuntime) -> Result<(), Fail> {
    let alloc = rt.alloc();
    let monomial = Monomial::variable(1);
    let low = Pair {
        first: 1,
        second: 2,
        lcm: Term {
            component: 2,
            monomial,
        },
    };
    let high = Pair {
        first: 1,
        second: 3,
        lcm: Term {
            component: 0,
            monomial,
        },
    };
    let degrees = List::from_vec(vec![in alloc; 0, 0, 2]?);
    for (by, first) in [(PairOrder::Terms, low), (PairOrder::Degrees(degrees), high)] {
        let mut queue = PairQueue::<ZeroDominates>::empty(alloc, by);
        queue.push(high)?;
        queue.push(low)?;
        assert!(rt; queue.pop() == Some(first));
    }
    Ok(())
}
