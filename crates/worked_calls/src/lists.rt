use ibp_base::List;
use std::test::Fail;

#[test]
fn a_list_has_the_items_of_its_vector(rt: HostRuntime) -> Result<(), Fail> {
    let alloc = rt.alloc();
    let list = List::from_vec(vec![in alloc; 3, 1, 2]?);
    assert_eq!(rt; list.as_slice(), [3, 1, 2].as_slice());
    assert_eq!(rt; list.into_vec().as_slice(), [3, 1, 2].as_slice());
    Ok(())
}
