// What bags keep of what they are offered.
use label_bag::{Bag, ListBag, NoRoom, Offered, StairBag, offer_all};
use label_order::{LabelOrder, Stair};
use std::alloc::{AllocError, Global};

// An arrival and a price in a network: those of two networks aren't compared.
#[derive(Clone, Copy, Drop)]
struct InNetwork {
    network: u8,
    arrival: u32,
    price: u32,
}

impl LabelOrder for InNetwork {
    ghost use Rattle.std.specs.Prelude.{◌&&◌, ◌==◌, nat_le};
    ghost use Rattle.std.proofs.Common.{arith};
    ghost use Rattle.std.proofs.lemmas.Bool.Decides.{nat_tests};

    ghost at_most = { λ a b. (a.network == b.network) && nat_le a.arrival b.arrival && nat_le a.price b.price };

    fn leq(&self, other: &Self) -> bool {
        self.network == other.network && self.arrival <= other.arrival && self.price <= other.price
    }

    ghost laws = { record { reflexive = λ a. Prim.grind (arith, nat_tests); transitive = λ a b c p q. Prim.grind (arith, nat_tests) } };
}

impl Stair for InNetwork {
    ghost use Rattle.std.specs.Prelude.{pos};
    ghost use Rattle.std.proofs.Common.{arith};
    ghost use Rattle.std.proofs.lemmas.Bool.Decides.{nat_tests};
    ghost use Rattle.std.proofs.lemmas.Int.{ints};

    type Class = u8;

    ghost class_of = { λ a. a.network };

    ghost height_of = { λ a. pos a.arrival };

    fn class(&self) -> u8 {
        self.network
    }

    fn height(&self) -> i64 {
        i64::from(self.arrival)
    }

    ghost stairs = { record { class = λ a b h. Prim.grind (arith, nat_tests); height = λ a b h. Prim.grind (arith, nat_tests, ints) } };
}

// Offers to two networks, whether each is kept, and how many members there are then.
const OFFERS: [(u8, u32, u32, bool, usize); 11] = [
    (1, 5, 5, true, 1),
    (2, 3, 3, true, 2),
    (1, 3, 6, true, 3),
    (2, 1, 9, true, 4),
    (1, 3, 7, false, 4),
    (2, 3, 4, false, 4),
    // They are in place of one member, and of two.
    (1, 5, 4, true, 4),
    (1, 1, 1, true, 3),
    // The members that are left cover themselves.
    (1, 1, 1, false, 3),
    (2, 1, 9, false, 3),
    (2, 3, 3, false, 3),
];

// Those members.
const MEMBERS: [InNetwork; 3] = [
    InNetwork {
        network: 1,
        arrival: 1,
        price: 1,
    },
    InNetwork {
        network: 2,
        arrival: 1,
        price: 9,
    },
    InNetwork {
        network: 2,
        arrival: 3,
        price: 3,
    },
];

// Whether the label is kept, or covered by the member that is named; none where there was no room.
fn is_kept<B: Bag<InNetwork>>(bag: &mut B, label: InNetwork) -> Option<bool> {
    match bag.offer(label) {
        Ok(Offered::Kept) => Some(true),
        Ok(Offered::Covered(number)) if bag.member(number).leq(&label) => Some(false),
        Ok(Offered::Covered(_)) | Err(_) => None,
    }
}

// Whether the offers are answered as they should, one by one.
fn are_answered<B: Bag<InNetwork>>(bag: &mut B) -> bool {
    for (network, arrival, price, kept, members) in &OFFERS {
        let label = InNetwork {
            network: *network,
            arrival: *arrival,
            price: *price,
        };
        if is_kept(bag, label) != Some(*kept) || bag.len() != *members {
            return false;
        }
    }
    true
}

// Whether a bag answers the offers so, and keeps the members that are left where these are offered at once.
fn keeps_members<B: Bag<InNetwork> + Drop>(mut one: B, mut other: B) -> bool {
    let answered = one.reserve(2).is_ok() && are_answered(&mut one);
    answered && offer_all(&mut other, &MEMBERS).is_ok() && other.len() == MEMBERS.len()
}

#[test]
fn offers(rt: HostRuntime) {
    let alloc = rt.alloc();
    assert!(rt; keeps_members(ListBag::new(alloc), ListBag::new(alloc)));
    assert!(rt; keeps_members(StairBag::new(alloc), StairBag::new(alloc)));
}
