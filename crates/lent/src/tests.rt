ghost use Rattle.std.specs.Prelude.{if◌then◌else◌, None, Some, nat_lt};

use crate::lent::{Lent, NoRoom};
use crate::sieve::Sieve;

// Those of 20 and more stay.
#[derive(Drop)]
struct Large;

impl Sieve<u8> for Large {
    ghost left = { λ _ x. (if nat_lt x 20 then None else Some x) };

    ghost after = { λ s _. s };

    fn pass(&mut self, item: u8) -> Option<u8> {
        if item < 20 { None } else { Some(item) }
    }
}

#[test]
fn items_come_and_go(rt: HostRuntime) {
    let mut memory = [7; 5];
    let mut list = Lent::new(&mut memory, 4, 0);
    assert_eq!(rt; list.insert(0, 30), Ok(()));
    assert_eq!(rt; list.insert(9, 10), Ok(()));
    assert_eq!(rt; list.insert(1, 20), Ok(()));
    assert!(rt; list.items() == [30, 20, 10].as_slice());
    assert_eq!(rt; list.spare(), 1);
    assert_eq!(rt; list.room(), 4);
    assert_eq!(rt; list.remove(3), None);
    assert_eq!(rt; list.remove(1), Some(20));
    list.replace(1, 11);
    list.replace(2, 12);
    assert!(rt; list.items() == [30, 11].as_slice());
    list.sift(0, &mut Large);
    assert!(rt; list.items() == [30].as_slice());
    assert!(rt; memory == [30, 0, 0, 0, 7]);
}

#[test]
fn no_more_than_there_is_room(rt: HostRuntime) {
    let mut memory = [7; 3];
    let mut list = Lent::new(&mut memory, 2, 0);
    assert_eq!(rt; list.insert(0, 1), Ok(()));
    assert_eq!(rt; list.insert(0, 2), Ok(()));
    assert_eq!(rt; list.insert(0, 3), Err(NoRoom));
    assert!(rt; list.items() == [2, 1].as_slice());
    list.clear();
    assert!(rt; list.items().is_empty());
    assert!(rt; memory == [0, 0, 7]);
}

#[test]
fn room_for_all_of_the_memory(rt: HostRuntime) {
    let mut memory = [7; 3];
    let list = Lent::new(&mut memory, 9, 5);
    assert_eq!(rt; list.room(), 3);
    assert!(rt; memory == [5, 5, 5]);
}
