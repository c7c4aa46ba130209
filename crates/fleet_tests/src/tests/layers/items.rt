//! Items: one, and others after it.

use fleet_observe::Items;

/// Allocates: `fleet_observe`: `Items::of_one`, `Items::push`.
#[test]
fn items_lie_in_the_order_in_which_they_came(rt: HostRuntime) {
    let mut items = Items::of_one(rt.alloc(), 53u16).expect(&rt, "memory");
    items.push(5301).expect(&rt, "memory");
    items.push(5300).expect(&rt, "memory");
    assert!(rt; items.len() == 3);
    assert!(rt; items.as_slice() == [53, 5301, 5300].as_slice());
    let items = Items::new(items.into_vec());
    assert!(rt; items.as_slice() == [53, 5301, 5300].as_slice());
}
