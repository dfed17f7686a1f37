ghost use Rattle.std.specs.Prelude.{◌+◌, if◌then◌else◌, nat_eq, nat_lt};
ghost use Rattle.std.proofs.Common.{rules};

use crate::change::Change;
use crate::list::{SlotList, Unchanged};
use crate::loose::LooseList;
use crate::slot::Slot;
use crate::span::Span;
use crate::value::Value;

impl Value for u8 {
    ghost alike = { nat_eq };

    ghost told = { Prim.search rules };

    fn same(self, other: u8) -> bool {
        self == other
    }
}

const MOST: u8 = 200;

#[derive(Drop)]
struct More;

impl Change<u8> for More {
    ghost changed = { λ _ v. (if nat_lt v 200 then v + 1 else v) };

    fn apply(&self, value: u8) -> u8 {
        if value < MOST { value + 1 } else { value }
    }
}

#[derive(Drop)]
struct Put(u8);

impl Change<u8> for Put {
    ghost changed = { λ p _. p.0 };

    fn apply(&self, _value: u8) -> u8 {
        self.0
    }
}

const OTHER: Slot<u8> = Slot {
    minute: 77,
    value: 77,
};

fn slot(minute: u32, value: u8) -> Slot<u8> {
    Slot { minute, value }
}

fn set(list: &mut SlotList<'_, u8>, from: u32, until: u32, value: u8) -> Result<(), Unchanged> {
    list.change(Span { from, until }, &Put(value))
}

#[test]
fn spans_may_begin_and_end_inside_records(rt: HostRuntime) {
    let mut memory = [OTHER; 8];
    let mut list = SlotList::new(&mut memory, 8, 0);
    assert_eq!(rt; set(&mut list, 10, 30, 1), Ok(()));
    assert_eq!(rt; set(&mut list, 40, 60, 2), Ok(()));
    assert!(rt; list.records() == [slot(10, 1), slot(30, 0), slot(40, 2), slot(60, 0)].as_slice());
    assert_eq!(rt;
        list.change(
            Span {
                from: 20,
                until: 50
            },
            &More
        ),
        Ok(())
    );
    assert!(rt;
        list.records()
            == [
                slot(10, 1),
                slot(20, 2),
                slot(30, 1),
                slot(40, 3),
                slot(50, 2),
                slot(60, 0)
            ]
            .as_slice()
    );
    assert!(rt; list.at(9) == 0 && list.at(29) == 2 && list.at(30) == 1 && list.at(1000) == 0);
}

#[test]
fn repeats_are_dropped(rt: HostRuntime) {
    let mut memory = [OTHER; 6];
    let mut list = SlotList::new(&mut memory, 6, 0);
    assert_eq!(rt; set(&mut list, 10, 20, 1), Ok(()));
    assert_eq!(rt; set(&mut list, 30, 40, 1), Ok(()));
    assert_eq!(rt; set(&mut list, 20, 30, 1), Ok(()));
    assert!(rt; list.records() == [slot(10, 1), slot(40, 0)].as_slice());
    assert_eq!(rt; set(&mut list, 0, 50, 0), Ok(()));
    assert!(rt; list.records().is_empty());
}

#[test]
fn spans_may_end_at_the_first_record_and_begin_after_the_last(rt: HostRuntime) {
    let mut memory = [OTHER; 6];
    let mut list = SlotList::new(&mut memory, 6, 0);
    assert_eq!(rt; set(&mut list, 10, 20, 1), Ok(()));
    assert_eq!(rt; set(&mut list, 5, 10, 2), Ok(()));
    assert_eq!(rt; set(&mut list, 30, 40, 3), Ok(()));
    assert!(rt;
        list.records()
            == [
                slot(5, 2),
                slot(10, 1),
                slot(20, 0),
                slot(30, 3),
                slot(40, 0)
            ]
            .as_slice()
    );
}

#[test]
fn what_does_not_fit_is_refused(rt: HostRuntime) {
    let mut memory = [OTHER; 4];
    let mut list = SlotList::new(&mut memory, 3, 0);
    assert_eq!(rt; set(&mut list, 10, 20, 1), Ok(()));
    assert_eq!(rt; set(&mut list, 30, 40, 2), Err(Unchanged::NoRoom));
    assert_eq!(rt; set(&mut list, 15, 15, 2), Err(Unchanged::NoMinute));
    assert_eq!(rt; set(&mut list, 16, 15, 2), Err(Unchanged::NoMinute));
    assert!(rt; list.records() == [slot(10, 1), slot(20, 0)].as_slice());
    assert_eq!(rt; set(&mut list, 20, 30, 2), Ok(()));
    assert!(rt; list.records() == [slot(10, 1), slot(20, 2), slot(30, 0)].as_slice());
    assert!(rt; memory[3] == OTHER);
}

#[test]
fn a_loose_list_takes_records_as_they_stand(rt: HostRuntime) {
    let mut memory = [slot(10, 1), slot(20, 0), slot(0, 0), slot(0, 0), OTHER];
    let mut list = LooseList {
        slots: &mut memory,
        used: 2,
        room: 4,
        floor: 0,
    };
    assert!(rt; list.change(15, 30, &Put(2)));
    assert!(rt; list.records() == [slot(10, 1), slot(15, 2), slot(30, 0)].as_slice());
    assert!(rt; list.used == 3 && list.at(29) == 2 && list.at(9) == 0);
    assert!(rt; !list.change(1, 5, &Put(3)) && !list.change(5, 5, &Put(3)));
    assert!(rt; list.change(10, 15, &Put(0)));
    assert!(rt; list.slots[1] == slot(30, 0) && list.slots[2] == slot(0, 0));
    list.clear();
    assert!(rt; list.records().is_empty() && list.slots[0] == slot(0, 0));
    assert!(rt; memory[4] == OTHER);
}

#[test]
fn a_loose_list_of_any_numbers_is_safe(rt: HostRuntime) {
    let mut memory = [slot(7, 1), slot(3, 2), OTHER];
    let mut list = LooseList {
        slots: &mut memory,
        used: 5,
        room: 2,
        floor: 0,
    };
    assert!(rt; !list.change(1, 9, &Put(3)) && list.records().len() == 3);
    list.room = 9;
    assert!(rt; !list.change(1, 9, &Put(3)));
    list.clear();
    assert!(rt; list.used == 5 && list.room == 9 && list.slots[0] == slot(7, 1));
}

#[test]
fn a_loose_list_begins_with_no_records(rt: HostRuntime) {
    let mut memory = [slot(7, 1), slot(3, 2), OTHER];
    let list = LooseList::new(&mut memory, 2, 4);
    assert!(rt; list.records().is_empty() && list.at(7) == 4);
    assert!(rt; memory[0] == slot(0, 4) && memory[1] == slot(0, 4) && memory[2] == OTHER);
}

// A value with no `==`.
#[derive(Clone, Copy)]
struct Bare(u8);

impl Value for Bare {
    ghost alike = { λ a b. nat_eq a.0 b.0 };

    ghost told = { Prim.search rules };

    fn same(self, other: Bare) -> bool {
        self.0 == other.0
    }
}

impl Change<Bare> for Put {
    ghost changed = { λ p _. record { 0 = p.0 } };

    fn apply(&self, _value: Bare) -> Bare {
        Bare(self.0)
    }
}

#[test]
fn a_value_needs_no_equality_of_its_own(rt: HostRuntime) {
    let mut memory = [Slot {
        minute: 0,
        value: Bare(0),
    }; 4];
    let mut list = SlotList::new(&mut memory, 4, Bare(0));
    let once = list.change(Span { from: 1, until: 3 }, &Put(5));
    let twice = list.change(Span { from: 3, until: 4 }, &Put(5));
    assert!(rt; once.is_ok() && twice.is_ok());
    assert!(rt; list.records().len() == 2 && list.at(3).0 == 5 && list.at(4).0 == 0);
}
