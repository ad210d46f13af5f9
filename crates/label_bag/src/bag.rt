//! What every bag promises.
ghost use Rattle.std.specs.Prelude.{◌≡◌, ℕ, ◌+◌, ◌<◌, ◌≤◌, List, [], ◌∷◌, length, take, slice_get, Some, OnOk, OnErr, IfErr};
ghost use Rattle.label_bag.specs.Bags.{Gathers, AreApart};

use label_order::LabelOrder;
use std::alloc::AllocError;

/// What became of a label that was offered.
#[derive(Clone, Copy)]
pub enum Offered {
    /// It is a member now; the members that it is at most are gone.
    Kept,
    /// The member with this number is at most it, so it was let go of.
    Covered(usize),
}

/// There was no memory for the label.
#[derive(Drop)]
pub struct NoRoom<L> {
    /// The label that was offered.
    pub label: L,
}

/// Labels of which none is at most another. Contracts see their list, and how many more find room without further memory.
pub trait Bag<L: LabelOrder> {
    ghost use Rattle.label_bag.specs.Offers.{IfCovered, OnKept, IsCoveredBy, TakesIn, IsHandedBack};

    ghost content: { Self → List L };

    ghost spare: { Self → ℕ };

    /// Makes room for so many more members.
    ///
    /// # Errors
    /// Want of memory.
    fn reserve(&mut self, more: usize) -> Result<(), AllocError>
        ensures unchanged { content self.new ≡ content self.old }
        ensures room { OnOk result (more ≤ spare self.new) }
        ensures refused { OnErr result (spare self.old < more) };

    /// Offers a label: it becomes a member, and the members that it is at most go, unless some member is at most it.
    ///
    /// # Errors
    /// Want of memory, which hands the label back and changes no member. It never comes where there was room for one more.
    fn offer(&mut self, label: L) -> Result<Offered, NoRoom<L>>
        ensures covered { IfCovered result (λ i. IsCoveredBy L.at_most (content self.old) i label (content self.new)) }
        ensures kept { OnKept result (TakesIn L.at_most (content self.old) label (content self.new)) }
        ensures no_room { IfErr result (λ e. IsHandedBack L.at_most (content self.old) (spare self.old) label e.label (content self.new)) }
        ensures spare { spare self.old ≤ spare self.new + 1 }
        ensures gathers { OnOk result (Gathers L.at_most (content self.old) (label ∷ []) (content self.new)) };

    /// How many members there are.
    fn len(&self) -> usize
        ensures { result ≡ length (content self.now) };

    /// The member with this number; each offer may number the members anew.
    fn member(&self, number: usize) -> &L
        requires { number < length (content self.now) }
        ensures { slice_get (content self.now) number ≡ Some result.now };

    ghost apart: { (bag : Self) → AreApart L.at_most (content bag) };
}

/// Offers the labels, in order.
///
/// # Errors
/// Want of memory; the labels before one that found no room were offered.
pub fn offer_all<L: LabelOrder + Copy, B: Bag<L>>(
    bag: &mut B,
    labels: &[L],
) -> Result<(), AllocError>
    ensures ok { OnOk result (Gathers L.at_most (B.content bag.old) labels.now (B.content bag.new)) }
    ensures err { OnErr result ((n : ℕ) × (n < length labels.now) × Gathers L.at_most (B.content bag.old) (take n labels.now) (B.content bag.new)) }
    ensures room { OnErr result (B.spare bag.old < length labels.now) }
{
    for label in labels {
        if bag.offer(*label).is_err() {
            return Err(AllocError);
        }
    }
    Ok(())
}
