// Sheets by example.
use crate::answer::Answer;
use crate::item::Item;
use crate::line::Line;
use crate::order::Order;
use crate::reader::{SheetReader, items};
use slots::slot::Slot;
use std::process::Abort;
use std::test::Fail;
use units::crew::Crew;

fn line(at: usize, bytes: &[u8]) -> Line<'_> {
    Line { at, bytes }
}

fn entry(at: usize, bytes: &[u8], order: Order) -> Item<'_> {
    Item::Entry(line(at, bytes), order)
}

// Every line of the sheet is bad, and there are so many.
fn check_bad(rt: &(impl Abort + AllocGlobal), sheet: &[u8], count: usize) -> Result<(), Fail> {
    for item in SheetReader::new(sheet) {
        assert!(rt; matches!(item, Item::Bad(_)));
    }
    assert_eq!(rt; items(rt.alloc(), sheet)?.len(), count);
    Ok(())
}

#[test]
fn fields_that_are_no_numbers(rt: HostRuntime) -> Result<(), Fail> {
    let sheet = b"C 01\nC 00\nC  1\nC 4294967296\nC 99999999999999999999\nC +1\nC 1a\nC \xb2";
    check_bad(&rt, sheet, 8)
}

#[test]
fn lines_of_no_form(rt: HostRuntime) -> Result<(), Fail> {
    let sheet = b"C 1 \nC 1\r\nc 1\nC\nC1\nC 1 2\nP 0 60 60 2\nP 0 60 60 2 0 1\nL \nLL\n L\n\x00\n";
    check_bad(&rt, sheet, 12)
}

#[test]
fn orders_with_their_numbers(rt: HostRuntime) -> Result<(), Fail> {
    let sheet = b"P 0 60 60 2 0\nC 4294967295\nB 0\nF 10\nL\n#C 1\n\n";
    let held = Order::Hold {
        ready: 0,
        duration: 60,
        deadline: 60,
        wanted: 2,
        welcome: 0,
    };
    let read = [
        entry(0, b"P 0 60 60 2 0", held),
        entry(14, b"C 4294967295", Order::Cancel(4294967295)),
        entry(27, b"B 0", Order::Begin(0)),
        entry(31, b"F 10", Order::Finish(10)),
        entry(36, b"L", Order::List),
        Item::Remark(line(38, b"#C 1")),
        Item::Remark(line(43, b"")),
    ];
    assert_eq!(rt; items(rt.alloc(), sheet)?.as_slice(), read.as_slice());
    Ok(())
}

#[test]
fn lines_with_and_without_an_end(rt: HostRuntime) -> Result<(), Fail> {
    assert_eq!(rt; items(rt.alloc(), b"")?.len(), 0);
    assert_eq!(rt; items(rt.alloc(), b"\n\n")?.len(), 2);
    assert_eq!(rt; items(rt.alloc(), b"P 0 60 60 2 0\nL\n")?.len(), 2);
    assert_eq!(rt; items(rt.alloc(), b"P 0 60 60 2 0\nL")?.len(), 2);
    Ok(())
}

#[test]
fn each_item_holds_its_own_part(rt: HostRuntime) -> Result<(), Fail> {
    let read = [
        entry(0, b"L", Order::List),
        Item::Bad(line(2, b"\xff\x00")),
        Item::Remark(line(5, b"")),
        entry(6, b"C 1", Order::Cancel(1)),
    ];
    assert_eq!(rt;
        items(rt.alloc(), b"L\n\xff\x00\n\nC 1")?.as_slice(),
        read.as_slice()
    );
    Ok(())
}

#[test]
fn answers_as_text(rt: HostRuntime) -> Result<(), Fail> {
    let slots = [
        Slot {
            minute: 60,
            value: Crew { mask: 127 },
        },
        Slot {
            minute: 120,
            value: Crew { mask: 0 },
        },
    ];
    let answers = [
        Answer::Granted {
            number: 1,
            start: 0,
            claim: 3,
        },
        Answer::Late {
            number: 3,
            start: 120,
        },
        Answer::Refused(9),
        Answer::Done,
        Answer::Silent,
        Answer::Listed,
    ];
    let mut out = String::new(rt.alloc());
    for answer in answers {
        answer.write_to(&slots, &mut out)?;
    }
    assert_eq!(rt;
        out.as_str(),
        "ok 1 0 3\nlate 3 120\nno 9\nok\nlist 2\n60 127\n120 0\n"
    );
    Ok(())
}
