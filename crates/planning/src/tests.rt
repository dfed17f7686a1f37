use crate::find::Search;
use crate::policy::*;
use crate::rectangle::Rectangle;
use crate::request::Request;
use slots::slot::Slot;
use std::test::Fail;
use units::crew::Crew;
use units::stock::Stock;

fn slot<L>(minute: u32, value: L) -> Slot<L> {
    Slot { minute, value }
}

fn stocked(minute: u32, count: u64) -> Slot<Stock> {
    slot(minute, Stock { count })
}

fn crewed(minute: u32, mask: u64) -> Slot<Crew> {
    slot(minute, Crew { mask })
}

// Between two busy stretches and after them; where two starts are as good, the earlier one counts.
fn start_by<P: Policy>(policy: &P) -> Option<u32> {
    let slots = [
        stocked(5, 3),
        stocked(10, 7),
        stocked(20, 4),
        stocked(30, 0),
    ];
    let request = Request {
        ready: 2,
        duration: 8,
        deadline: 60,
        wanted: 5,
    };
    let search = Search {
        slots: &slots,
        capacity: 10,
        horizon: 100,
        request,
    };
    search.find_start(policy).map(|rectangle| rectangle.start)
}

#[test]
fn seven_policies(rt: HostRuntime) {
    assert_eq!(rt; start_by(&EARLIEST_START), Some(2));
    assert_eq!(rt; start_by(&FEWEST_FREE), Some(20));
    assert_eq!(rt; start_by(&MOST_FREE), Some(30));
    assert_eq!(rt; start_by(&SHORTEST_STRETCH), Some(2));
    assert_eq!(rt; start_by(&LONGEST_STRETCH), Some(20));
    assert_eq!(rt; start_by(&SMALLEST_PRODUCT), Some(2));
    assert_eq!(rt; start_by(&LARGEST_PRODUCT), Some(30));
}

#[test]
fn products_beyond_32_bits(rt: HostRuntime) {
    let large = Rectangle {
        start: 0,
        units: 65_536,
        opening: 0,
        closing: 65_536,
    };
    let small = Rectangle {
        start: 0,
        units: 1,
        opening: 0,
        closing: 1,
    };
    assert!(rt; LARGEST_PRODUCT.prefers(&large, &small));
    assert!(rt; SMALLEST_PRODUCT.prefers(&small, &large));
    assert!(rt; !LARGEST_PRODUCT.prefers(&large, &large));
}

#[test]
fn the_same_mechanics_throughout(rt: HostRuntime) -> Result<(), Fail> {
    let slots = [crewed(0, 1), crewed(5, 2), crewed(10, 0)];
    let request = Request {
        ready: 0,
        duration: 10,
        deadline: 10,
        wanted: 1,
    };
    let search = Search {
        slots: &slots,
        capacity: 2,
        horizon: 100,
        request,
    };
    assert!(rt; search.find_claim(&EARLIEST_START).is_none());
    let later = Search {
        request: Request {
            deadline: 20,
            ..request
        },
        ..search
    };
    let found = later.find_claim(&EARLIEST_START).ok_or("none can")?;
    assert_eq!(rt; found.rectangle.start, 5);
    assert_eq!(rt; found.claim.mask, 1);
    Ok(())
}

#[test]
fn the_stretch_around_a_start(rt: HostRuntime) -> Result<(), Fail> {
    let slots = [crewed(0, 3), crewed(5, 15), crewed(10, 12), crewed(15, 0)];
    let request = Request {
        ready: 0,
        duration: 10,
        deadline: 40,
        wanted: 2,
    };
    let search = Search {
        slots: &slots,
        capacity: 4,
        horizon: 100,
        request,
    };
    let found = search.find_claim(&MOST_FREE).ok_or("none can")?;
    let expected = Rectangle {
        start: 15,
        units: 4,
        opening: 15,
        closing: 100,
    };
    assert_eq!(rt; found.rectangle, expected);
    Ok(())
}
