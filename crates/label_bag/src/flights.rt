//! How many members of each class stand together.
ghost use Rattle.std.specs.Prelude.{◌≡◌, ◌^◌, ◌<◌, IfSome, IfNone, sum_by};
ghost use Rattle.label_bag.specs.Flights.{IsPlace, LacksClass};

/// The members of one class, in ascending order of height.
#[derive(Clone, Copy)]
pub struct Flight<C> {
    pub class: C,
    /// How many they are.
    pub size: usize,
}

/// Where a flight lies among the members.
#[derive(Clone, Copy)]
pub struct Place {
    /// The number of the flight.
    pub number: usize,
    /// The number of its first member.
    pub begin: usize,
    /// The number after that of its last member.
    pub end: usize,
}

/// The place of the flight of this class.
pub fn place_of<C: Eq + Copy>(flights: &[Flight<C>], class: C) -> Option<Place>
    requires { sum_by (λ (f : Flight C). f.size) flights.now < 2 ^ 64 }
    ensures found { IfSome result (IsPlace C.eq flights.now class) }
    ensures none { IfNone result (LacksClass C.eq flights.now class) }
{
    let mut begin = 0;
    for (number, flight) in flights.iter().enumerate() {
        let end = begin + flight.size;
        if flight.class == class {
            return Some(Place { number, begin, end });
        }
        begin = end;
    }
    None
}
