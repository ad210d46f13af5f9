// Fare states and the moves from them, and transfer rows, worked by hand.
ghost use Rattle.std.specs.Prelude.{◌≤◌, ◌^◌, nat_abs};

use crate::feeds::{AT_ONCE, feed_of};
use fare_automaton::Automaton;
use fare_transfer_rules::XferRules;
use feed_files::FileName;
use feed_rows::{AreaList, FareState, Feed, FrameList, LegFacts, Move, NO_CATEGORY, TransferFacts};
use std::alloc::{AllocError, Global};
use transit_base::{LegGroupId, Moment, Money, ProductRowId, RuleId, XferId};

// Each leg may be of town or of land, where a ticket has a dearer row and a cheaper one. A change to land costs a ticket of town
// and leaves both legs charged; one from land costs such a ticket in place of both.
const FILES: [(FileName, &[u8]); 9] = [
    (FileName::Stops, b"stop_id\nA\n"),
    (FileName::Routes, b"route_id\nR\n"),
    (FileName::Trips, b"route_id,service_id,trip_id\n"),
    (
        FileName::StopTimes,
        b"trip_id,arrival_time,departure_time,stop_id,stop_sequence\n",
    ),
    (
        FileName::CalendarDates,
        b"service_id,date,exception_type\nS,20250602,1\n",
    ),
    (
        FileName::FareMedia,
        b"fare_media_id,fare_media_type\ncard,2\n",
    ),
    (
        FileName::FareProducts,
        b"fare_product_id,fare_media_id,amount,currency\nday,,3.00,EUR\nday,card,2.50,EUR\nshort,,1.80,EUR\n",
    ),
    (
        FileName::FareLegRules,
        b"leg_group_id,fare_product_id\ntown,short\nland,day\n",
    ),
    (
        FileName::FareTransferRules,
        b"from_leg_group_id,to_leg_group_id,fare_transfer_type,fare_product_id\n\
        town,land,1,short\nland,town,2,short\n",
    ),
];

// Behind a leg of town that begins a run, and behind one that doesn't; no limit reads a clock.
const TOWN: FareState = FareState {
    group: Some(LegGroupId(0)),
    count: 0,
    departure: None,
    arrival: None,
    first: true,
};

const TOWN_BEHIND_LAND: FareState = FareState {
    first: false,
    ..TOWN
};

// The same of land.
const LAND: FareState = FareState {
    group: Some(LegGroupId(1)),
    ..TOWN
};

const LAND_BEHIND_TOWN: FareState = FareState {
    first: false,
    ..LAND
};

// A first leg by each ticket.
const BY_TOWN: Move = Move {
    state: TOWN,
    paid: Money(0),
    held: Money(180),
    rule: RuleId(0),
    product: ProductRowId(2),
    xfer: None,
    xfer_product: None,
};

const BY_LAND: Move = Move {
    state: LAND,
    held: Money(300),
    rule: RuleId(1),
    product: ProductRowId(0),
    ..BY_TOWN
};

const BY_CARD: Move = Move {
    held: Money(250),
    product: ProductRowId(1),
    ..BY_LAND
};

// A leg of land behind one of town: that, the change and the leg are paid.
const TO_LAND: Move = Move {
    state: LAND_BEHIND_TOWN,
    paid: Money(660),
    held: Money(0),
    xfer: Some(XferId(0)),
    xfer_product: Some(ProductRowId(2)),
    ..BY_LAND
};

// What stands before a leg and how much is held then, in cents, and the moves of the leg.
const MOVES: [(Option<FareState>, u32, [Move; 3]); 3] = [
    (None, 0, [BY_TOWN, BY_LAND, BY_CARD]),
    // Within town no change is arranged.
    (
        Some(TOWN),
        180,
        [
            Move {
                paid: Money(180),
                ..BY_TOWN
            },
            TO_LAND,
            Move {
                paid: Money(610),
                product: ProductRowId(1),
                ..TO_LAND
            },
        ],
    ),
    // To town the change alone is paid; within land no change is arranged.
    (
        Some(LAND),
        250,
        [
            Move {
                state: TOWN_BEHIND_LAND,
                paid: Money(180),
                held: Money(0),
                xfer: Some(XferId(1)),
                xfer_product: Some(ProductRowId(2)),
                ..BY_TOWN
            },
            Move {
                paid: Money(250),
                ..BY_LAND
            },
            Move {
                paid: Money(250),
                ..BY_CARD
            },
        ],
    ),
];

// A leg without network, areas and timeframes.
fn leg(alloc: Global) -> LegFacts {
    LegFacts {
        network: None,
        from_areas: AreaList::empty(alloc),
        to_areas: AreaList::empty(alloc),
        from_frames: FrameList::empty(alloc),
        to_frames: FrameList::empty(alloc),
        departure: Moment(31_200),
        arrival: Moment(31_800),
    }
}

// Whether these are the moves of a leg behind what stands before it.
fn are_moves(
    automaton: &Automaton,
    alloc: Global,
    before: Option<FareState>,
    held: Money,
    wanted: &[Move],
) -> bool
    requires { nat_abs held.0 ≤ 10 ^ 16 }
{
    let leg = leg(alloc);
    let moves = match before {
        Some(state) => automaton.step(alloc, &state, held, &leg),
        None => automaton.start(alloc, &leg),
    };
    match moves {
        Ok(moves) => moves.items() == wanted,
        Err(AllocError) => false,
    }
}

// Whether all moves are as they were worked by hand.
fn are_all_moves(alloc: Global, feed: &Feed) -> bool {
    let Ok(automaton) = Automaton::compile(alloc, feed, NO_CATEGORY) else {
        return false;
    };
    for (before, held, wanted) in &MOVES {
        if !are_moves(&automaton, alloc, *before, Money(i64::from(*held)), wanted) {
            return false;
        }
    }
    true
}

// A change from town to land.
const CHANGE: TransferFacts = TransferFacts {
    from: LegGroupId(0),
    to: LegGroupId(1),
    count: 1,
    first_departure: Moment(28_800),
    first_arrival: Moment(29_400),
    next_departure: Moment(29_700),
    next_arrival: Moment(30_300),
};

// Whether the first row alone is for that change.
fn is_first_selected(alloc: Global, feed: &Feed) -> bool {
    let Ok(rules) = XferRules::build(alloc, feed) else {
        return false;
    };
    match rules.selected(alloc, &CHANGE) {
        Ok(rows) => rows.items() == [XferId(0)].as_slice(),
        Err(AllocError) => false,
    }
}

// Whether moves and rows over the feed are as they were worked by hand.
fn is_as_worked(alloc: Global) -> bool {
    match feed_of(alloc, &FILES, AT_ONCE) {
        Ok(feed) => are_all_moves(alloc, &feed) && is_first_selected(alloc, &feed),
        Err(AllocError) => false,
    }
}

#[test]
fn moves_and_rows(rt: HostRuntime) {
    assert!(rt; is_as_worked(rt.alloc()));
}
