// How labels of one part and of two compare, and where steps lead from them.
use label_order::{Both, Continues, Flat, LabelOrder, Least, Stair};

// Whether labels of one part and of two compare as they should, and the class and the height of one.
fn are_ordered() -> bool {
    let (one, two) = (Least(1), Least(2));
    let (early, cheap) = (Both(one, two), Both(two, one));
    let stair = Both(Least(5), Flat('a'));
    let parts = one.leq(&two) && two.leq(&two) && !two.leq(&one);
    let flat = Flat('b').leq(&Flat('b')) && !Flat('a').leq(&Flat('b'));
    let both = early.leq(&Both(two, two)) && !early.leq(&cheap) && !cheap.leq(&early);
    parts && flat && both && stair.class() == 0 && stair.height() == 5
}

// A step from a number, and from each that is less, to another.
#[derive(Drop)]
struct Step {
    from: u32,
    to: u32,
}

impl Continues<Step> for Least<u32> {
    ghost use Rattle.std.specs.Prelude.{◌≡◌, true, ◌&&◌, ◌==◌, nat_le};
    ghost use Rattle.std.proofs.Common.{arith};
    ghost use Rattle.std.proofs.lemmas.Bool.Decides.{nat_tests};

    ghost leads = { λ a r n. nat_le a.0 r.from && (n.0 == r.to) };

    ghost followed = { λ a b r n. record { 0 = r.to } };

    fn reaches(&self, step: &Step, next: &Self) -> bool {
        self.0 <= step.from && next.0 == step.to
    }

    fn follow(&self, _other: &Self, step: &Step, _next: &Self) -> Self {
        Least(step.to)
    }

    ghost follows = { λ a b r n near goes. record { reached = Prim.grind (arith, nat_tests); below = Prim.grind (arith, nat_tests) } };
}

// Whether a step leads on where it does in both parts, and what it makes of a label stays as good as what it makes of another.
fn is_followed() -> bool {
    let step = Step { from: 20, to: 30 };
    let (early, late) = (Both(Least(10), Least(20)), Both(Least(20), Least(20)));
    let (there, half) = (Both(Least(30), Least(30)), Both(Least(30), Least(20)));
    let leads = early.reaches(&step, &there) && late.reaches(&step, &there);
    let stops = late.reaches(&step, &half) || half.reaches(&step, &there);
    leads && !stops && early.leq(&late) && early.follow(&late, &step, &there).leq(&there)
}

#[test]
fn orders_and_steps(rt: HostRuntime) {
    assert!(rt; are_ordered() && is_followed());
}
