// A heap by an order that is not the type's own `Ord`. The expected values were worked out by hand.
ghost use Rattle.std.specs.Prelude.{nat_le};
ghost use Rattle.std.proofs.Common.{rules};
ghost use Rattle.heap.specs.declared.tests.Urgent.{Urgent};

use crate::bounded::BoundedHeap;
use crate::order::TotalOrder;

#[derive(Clone, Copy, Debug, PartialEq, Eq, PartialOrd, Ord)]
struct Urgent {
    level: u8,
}

// The most urgent comes first, the other way round than the derived order.
impl TotalOrder for Urgent {
    ghost le = { λ (a b : Urgent). nat_le b.level a.level };

    ghost total = { Prim.search rules };

    ghost transitive = { Prim.search rules };

    ghost antisymmetric = { Prim.search rules };

    fn no_later(&self, other: &Urgent) -> bool {
        self.level >= other.level
    }
}

#[test]
fn own_order(rt: HostRuntime) {
    let mut memory = [Urgent { level: 0 }; 3];
    let mut heap = BoundedHeap::new(&mut memory);
    for level in [1, 3, 2] {
        assert!(rt; heap.put(Urgent { level }).is_ok());
    }
    assert_eq!(rt; heap.take_first(), Some(Urgent { level: 3 }));
    assert_eq!(rt; heap.take_first(), Some(Urgent { level: 2 }));
    assert_eq!(rt; heap.take_first(), Some(Urgent { level: 1 }));
    assert_eq!(rt; heap.take_first(), None);
}
