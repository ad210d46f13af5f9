//! What a search asks of its labels.
ghost use Rattle.std.specs.Prelude.{◌≡◌, ℤ, Bool, true};

/// What a search keeps of a way: labels of which one may be as good as another, whatever comes after. A bag drops those that
/// it doesn't keep.
pub trait LabelOrder: Drop {
    ghost use Rattle.label_order.specs.Labels.{OrderLaws};

    ghost at_most: { Self → Self → Bool };

    /// Whether this label is as good as the other, or better: every label is at most itself, and what is at most a label is
    /// at most all that this one is at most.
    fn leq(&self, other: &Self) -> bool
        ensures { result ≡ at_most self.now other.now };

    ghost laws: { OrderLaws at_most };
}

/// Labels with steps of the kind `R` from one to another, where a label that is as good as another can take each step that the
/// other takes, to a label that is as good as where the other gets.
pub trait Continues<R>: LabelOrder {
    ghost use Rattle.label_order.specs.Labels.{IsReachedBelow};

    ghost leads: { Self → R → Self → Bool };

    ghost followed: { Self → Self → R → Self → Self };

    /// Whether the step leads from this label to the next.
    fn reaches(&self, step: &R, next: &Self) -> bool
        ensures { result ≡ leads self.now step.now next.now };

    /// Where the step leads from this label, which is at most the other, from which it leads to `next`: a label that is at most
    /// `next`.
    fn follow(&self, other: &Self, step: &R, next: &Self) -> Self
        requires near { Self.at_most self.now other.now ≡ true }
        requires reached { leads other.now step.now next.now ≡ true }
        ensures { result ≡ followed self.now other.now step.now next.now };

    ghost follows: { (a b : Self) (r : R) (n : Self) → Self.at_most a b ≡ true → leads b r n ≡ true → IsReachedBelow Self.at_most leads a r n (followed a b r n) };
}

/// Labels in classes, and with a height: a label that is at most another has its class, and is not higher.
pub trait Stair: LabelOrder {
    ghost use Rattle.label_order.specs.Labels.{StairLaws};

    /// What only labels of one class share.
    type Class: Eq + Copy;

    ghost class_of: { Self → Self.Class };

    ghost height_of: { Self → ℤ };

    /// The class, without which no label is comparable.
    fn class(&self) -> Self::Class
        ensures { result ≡ class_of self.now };

    /// The height within the class.
    fn height(&self) -> i64
        ensures { result ≡ height_of self.now };

    ghost stairs: { StairLaws Self.at_most Self.Class.eq class_of height_of };
}
