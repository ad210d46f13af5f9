//! Labels of one part and of two.
ghost use Rattle.std.specs.Prelude.{◌≡◌, ◌&&◌, true};
ghost use Rattle.std.specs.Ordering.{is_le};

use crate::traits::{Continues, LabelOrder, Stair};

/// A value of which less is better.
#[derive(Clone, Copy)]
pub struct Least<T: Ord + Copy>(pub T);

/// A value that no other value stands in for.
#[derive(Clone, Copy)]
pub struct Flat<T: Eq + Copy>(pub T);

/// A label of two parts: it is at most another where both parts are.
#[derive(Clone, Copy, Drop)]
pub struct Both<A, B>(pub A, pub B);

impl<T: Ord + Copy> LabelOrder for Least<T> {
    ghost use Rattle.label_order.specs.PartLaws.{least_laws};

    ghost at_most = { λ a b. is_le (T.cmp a.0 b.0) };

    fn leq(&self, other: &Self) -> bool {
        self.0 <= other.0
    }

    ghost laws = { least_laws (λ x. x.0) T.cmp T.Ord.total };
}

impl<T: Eq + Copy> LabelOrder for Flat<T> {
    ghost use Rattle.label_order.specs.PartLaws.{flat_laws};

    ghost at_most = { λ a b. T.eq a.0 b.0 };

    fn leq(&self, other: &Self) -> bool {
        self.0 == other.0
    }

    ghost laws = { flat_laws (λ x. x.0) T.eq T.Eq.laws };
}

impl<A: LabelOrder, B: LabelOrder> LabelOrder for Both<A, B> {
    ghost use Rattle.label_order.specs.PartLaws.{both_laws};

    ghost at_most = { λ a b. A.at_most a.0 b.0 && B.at_most a.1 b.1 };

    fn leq(&self, other: &Self) -> bool {
        self.0.leq(&other.0) && self.1.leq(&other.1)
    }

    ghost laws = { both_laws (λ x. x.0) (λ x. x.1) A.at_most B.at_most A.laws B.laws };
}

/// Both parts take the step.
impl<R, A: Continues<R>, B: Continues<R>> Continues<R> for Both<A, B> {
    ghost use Rattle.std.proofs.lemmas.Bool.{and_parts};
    ghost use Rattle.label_order.specs.PartLaws.{both_reached};

    ghost leads = { λ a r n. A.leads a.0 r n.0 && B.leads a.1 r n.1 };

    ghost followed = { λ a b r n. record { 0 = A.followed a.0 b.0 r n.0; 1 = B.followed a.1 b.1 r n.1 } };

    fn reaches(&self, step: &R, next: &Self) -> bool {
        self.0.reaches(step, &next.0) && self.1.reaches(step, &next.1)
    }

    fn follow(&self, other: &Self, step: &R, next: &Self) -> Self {
        Both(
            self.0.follow(&other.0, step, &next.0),
            self.1.follow(&other.1, step, &next.1),
        )
    }

    ghost follows = { λ a b r n near reached.
        both_reached (λ x. x.0) (λ x. x.1) A.at_most B.at_most A.leads B.leads a r n _
        (A.follows a.0 b.0 r n.0 (and_parts _ _ near).0 (and_parts _ _ reached).0)
        (B.follows a.1 b.1 r n.1 (and_parts _ _ near).1 (and_parts _ _ reached).1) };
}

/// One class, by height of the first part.
impl<B: LabelOrder> Stair for Both<Least<i64>, B> {
    ghost use Rattle.std.specs.Prelude.{refl};
    ghost use Rattle.std.proofs.lemmas.Bool.{and_parts};
    ghost use Rattle.label_order.specs.PartLaws.{int_le-from_cmp};

    type Class = u8;

    ghost class_of = { λ a. 0 };

    ghost height_of = { λ a. a.0.0 };

    fn class(&self) -> u8 {
        0
    }

    fn height(&self) -> i64 {
        self.0.0
    }

    ghost stairs = { record { class = λ a b h. refl; height = λ a b h. int_le-from_cmp a.0.0 b.0.0 (and_parts _ _ h).0 } };
}
