// Boards, and what calls on them must answer and leave. The answers were worked out from the rules, minute by minute, and not by this program.
use board::board::Board;
use board::grant::Grant;
use board::setup::set_up_check;
use bookings::booking::Booking;
use bookings::row::{Row, State};
use planning::policy::*;
use planning::request::Request;
use slots::slot::Slot;
use slots::value::Value;
use std::process::Abort;
use std::test::Fail;
use units::crew::Crew;
use units::kind::Units;
use units::stock::Stock;

fn request(ready: u32, duration: u32, deadline: u32, wanted: u32) -> Request {
    Request {
        ready,
        duration,
        deadline,
        wanted,
    }
}

// A record of a slot list; of a crew's, and of a stock's.
fn slot<L>(minute: u32, value: L) -> Slot<L> {
    Slot { minute, value }
}

fn crew(minute: u32, mask: u64) -> Slot<Crew> {
    slot(minute, Crew { mask })
}

fn stock(minute: u32, count: u64) -> Slot<Stock> {
    slot(minute, Stock { count })
}

fn row<L: Units>(number: u32, start: u32, end: u32, claim: L, state: State) -> Row<L> {
    Row {
        number,
        booking: Booking { start, end, claim },
        state,
    }
}

fn no_row<L: Units>() -> Row<L> {
    row(0, 0, 0, L::nothing(), State::Blank)
}

// Books by the earliest start, and says what must be granted.
fn book<L: Units>(
    rt: &impl Abort,
    board: &mut Board<'_, L>,
    asked: Request,
    number: u32,
    start: u32,
    claim: L,
) -> Result<(), Fail> {
    let grant = board.hold(asked, &EARLIEST_START)?;
    let Grant {
        number: granted,
        start: begin,
        end,
        claim: taken,
        token,
    } = grant;
    board.confirm(token).unwrap();
    assert_eq!(rt; granted, number);
    assert_eq!(rt; begin, start);
    assert_eq!(rt;
        u64::from(end),
        u64::from(start) + u64::from(asked.duration)
    );
    assert!(rt; taken.same(claim));
    Ok(())
}

// Stays: what is expected are the numbers that the rules give refusals.
// The start that the policy chooses, or the number of the refusal: the booking is released at once.
fn start<L: Units, P: Policy>(
    board: &mut Board<'_, L>,
    asked: Request,
    policy: &P,
) -> Result<u32, u32> {
    let grant = board.hold(asked, policy)?;
    let Grant {
        number: _,
        start,
        end: _,
        claim: _,
        token,
    } = grant;
    board.release(token).unwrap();
    Ok(start)
}

// A held booking can be neither cancelled, begun nor finished; then it is confirmed.
fn barred_while_held<L: Units>(
    rt: &impl Abort,
    board: &mut Board<'_, L>,
    asked: Request,
) -> Result<(), Fail> {
    let grant = board.hold(asked, &EARLIEST_START)?;
    let Grant {
        number: _,
        start: _,
        end: _,
        claim: _,
        token,
    } = grant;
    let number = token.number();
    let cancelled = board.cancel(number).map_err(u32::from);
    let begun = board.begin(number).map_err(u32::from);
    let finished = board.finish(number).map_err(u32::from);
    board.confirm(token).unwrap();
    assert_eq!(rt; cancelled, Err(12));
    assert_eq!(rt; begun, Err(12));
    assert_eq!(rt; finished, Err(12));
    Ok(())
}

// A token that another board neither confirms nor releases comes back, and its own board takes it.
fn handed_back<L: Units>(
    rt: &impl Abort,
    board: &mut Board<'_, L>,
    other: &mut Board<'_, L>,
    asked: Request,
) -> Result<(), Fail> {
    let grant = board.hold(asked, &EARLIEST_START)?;
    let Grant {
        number,
        start: _,
        end: _,
        claim: _,
        token,
    } = grant;
    let Err(back) = other.confirm(token) else {
        return Err(Fail::new("another board took the token"));
    };
    let same = back.number();
    board.confirm(back).unwrap();
    assert_eq!(rt; same, number);
    Ok(())
}

#[test]
fn a_crew_of_four(rt: HostRuntime) -> Result<(), Fail> {
    let mut rows = [no_row(); 4];
    let mut slots = [crew(0, 0); 8];
    let mut board = Board::make(4, 100, &mut rows, &mut slots);
    assert_eq!(rt;
        start(&mut board, request(0, 0, 10, 1), &EARLIEST_START),
        Err(4)
    );
    assert_eq!(rt;
        start(&mut board, request(0, 10, 10, 5), &EARLIEST_START),
        Err(5)
    );
    assert_eq!(rt;
        start(&mut board, request(0, 10, 9, 1), &EARLIEST_START),
        Err(6)
    );
    assert_eq!(rt;
        start(&mut board, request(91, 10, 101, 1), &EARLIEST_START),
        Err(6)
    );
    assert_eq!(rt; board.next_number(), 1);
    book(
        &rt,
        &mut board,
        request(0, 10, 10, 2),
        1,
        0,
        Crew { mask: 3 },
    )?;
    book(
        &rt,
        &mut board,
        request(5, 10, 30, 2),
        2,
        5,
        Crew { mask: 12 },
    )?;
    assert!(rt; board.slots() == [crew(0, 3), crew(5, 15), crew(10, 12), crew(15, 0)].as_slice());
    assert_eq!(rt;
        start(&mut board, request(0, 10, 19, 2), &EARLIEST_START),
        Err(9)
    );
    book(
        &rt,
        &mut board,
        request(0, 10, 20, 2),
        3,
        10,
        Crew { mask: 3 },
    )?;
    assert!(rt; board.slots() == [crew(0, 3), crew(5, 15), crew(15, 3), crew(20, 0)].as_slice());
    assert_eq!(rt; board.cancel(1), Ok(()));
    assert!(rt; board.slots() == [crew(5, 12), crew(10, 15), crew(15, 3), crew(20, 0)].as_slice());
    assert!(rt;
        board.rows()
            == [
                row(2, 5, 15, Crew { mask: 12 }, State::Confirmed),
                row(3, 10, 20, Crew { mask: 3 }, State::Confirmed),
            ]
            .as_slice()
    );
    Ok(())
}

#[test]
fn by_the_most_free(rt: HostRuntime) -> Result<(), Fail> {
    let mut rows = [no_row(); 4];
    let mut slots = [crew(0, 0); 8];
    let mut board = Board::make(4, 100, &mut rows, &mut slots);
    assert_eq!(rt;
        start(&mut board, request(90, 10, 100, 1), &EARLIEST_START),
        Ok(90)
    );
    book(
        &rt,
        &mut board,
        request(0, 10, 10, 2),
        2,
        0,
        Crew { mask: 3 },
    )?;
    book(
        &rt,
        &mut board,
        request(5, 10, 30, 2),
        3,
        5,
        Crew { mask: 12 },
    )?;
    assert_eq!(rt;
        start(&mut board, request(0, 10, 40, 2), &MOST_FREE),
        Ok(15)
    );
    Ok(())
}

#[test]
fn a_stock_of_three(rt: HostRuntime) -> Result<(), Fail> {
    let mut rows = [no_row(); 4];
    let mut slots = [stock(0, 0); 8];
    let mut board = Board::make(3, 100, &mut rows, &mut slots);
    book(
        &rt,
        &mut board,
        request(0, 10, 10, 2),
        1,
        0,
        Stock { count: 2 },
    )?;
    assert_eq!(rt;
        start(&mut board, request(5, 10, 15, 2), &EARLIEST_START),
        Err(9)
    );
    book(
        &rt,
        &mut board,
        request(5, 10, 20, 2),
        2,
        10,
        Stock { count: 2 },
    )?;
    assert!(rt; board.slots() == [stock(0, 2), stock(20, 0)].as_slice());
    Ok(())
}

// The rectangles that can start: 5 with 4 free from 0 to 35; 10 and 20 with 10 from 10 to 30; 25 with 9 from 10 to 35; 30 and 35 with 3 from 0 to 60; 40 with 4 from 40 to 60; 45 and 50 with 10 from 45 to 60.
#[test]
fn seven_policies_and_the_earliest_of_equals(rt: HostRuntime) -> Result<(), Fail> {
    let mut rows = [no_row(); 4];
    let mut slots = [stock(0, 0); 8];
    let mut board = Board::make(10, 60, &mut rows, &mut slots);
    book(
        &rt,
        &mut board,
        request(35, 10, 45, 6),
        1,
        35,
        Stock { count: 6 },
    )?;
    book(
        &rt,
        &mut board,
        request(30, 10, 40, 1),
        2,
        30,
        Stock { count: 1 },
    )?;
    book(
        &rt,
        &mut board,
        request(5, 5, 10, 6),
        3,
        5,
        Stock { count: 6 },
    )?;
    let asked = request(5, 10, 60, 2);
    assert_eq!(rt; start(&mut board, asked, &EARLIEST_START), Ok(5));
    assert_eq!(rt; start(&mut board, asked, &FEWEST_FREE), Ok(30));
    assert_eq!(rt; start(&mut board, asked, &MOST_FREE), Ok(10));
    assert_eq!(rt; start(&mut board, asked, &SHORTEST_STRETCH), Ok(45));
    assert_eq!(rt; start(&mut board, asked, &LONGEST_STRETCH), Ok(30));
    assert_eq!(rt; start(&mut board, asked, &SMALLEST_PRODUCT), Ok(40));
    assert_eq!(rt; start(&mut board, asked, &LARGEST_PRODUCT), Ok(25));
    Ok(())
}

#[test]
fn setting_up(rt: HostRuntime) {
    assert!(rt; set_up_check::<Crew>(64, 1_048_576, 256, 512).is_ok());
    assert!(rt; set_up_check::<Stock>(4_095, 1, 1, 2).is_ok());
    assert_eq!(rt; set_up_check::<Crew>(0, 0, 0, 0).map_err(u32::from), Err(1));
    assert_eq!(rt;
        set_up_check::<Crew>(65, 1, 1, 2).map_err(u32::from),
        Err(1)
    );
    assert_eq!(rt;
        set_up_check::<Stock>(4_096, 1, 1, 2).map_err(u32::from),
        Err(1)
    );
    assert_eq!(rt; set_up_check::<Crew>(1, 0, 0, 0).map_err(u32::from), Err(2));
    assert_eq!(rt;
        set_up_check::<Crew>(1, 1_048_577, 1, 2).map_err(u32::from),
        Err(2)
    );
    assert_eq!(rt; set_up_check::<Crew>(1, 1, 0, 2).map_err(u32::from), Err(3));
    assert_eq!(rt;
        set_up_check::<Crew>(1, 1, 257, 1_000).map_err(u32::from),
        Err(3)
    );
    assert_eq!(rt; set_up_check::<Crew>(1, 1, 2, 3).map_err(u32::from), Err(3));
}

// Its memory is as it was, and every hold is refused.
#[test]
fn a_closed_board(rt: HostRuntime) {
    let old = row(7, 1, 2, Crew { mask: 9 }, State::Held);
    let mut rows = [old; 2];
    let mut slots = [crew(5, 6); 4];
    let mut board = Board::make(4, 0, &mut rows, &mut slots);
    assert_eq!(rt; board.capacity(), 0);
    assert_eq!(rt; board.horizon(), 0);
    assert_eq!(rt; board.room(), 0);
    assert_eq!(rt; board.next_number(), 1);
    assert_eq!(rt;
        start(&mut board, request(0, 0, 0, 1), &EARLIEST_START),
        Err(4)
    );
    assert_eq!(rt;
        start(&mut board, request(0, 1, 0, 1), &EARLIEST_START),
        Err(5)
    );
    assert_eq!(rt; board.cancel(7).map_err(u32::from), Err(11));
    let (rows, slots) = board.close();
    assert!(rt; &*rows == [old, old].as_slice());
    assert!(rt; &*slots == [crew(5, 6), crew(5, 6), crew(5, 6), crew(5, 6)].as_slice());
}

// The rows and the list, blanks behind them, and the records beyond twice the rows as they were.
#[test]
fn memory_handed_back(rt: HostRuntime) -> Result<(), Fail> {
    let mut rows = [row(7, 1, 2, Crew { mask: 9 }, State::Held); 2];
    let mut slots = [crew(5, 6); 6];
    let mut board = Board::make(4, 100, &mut rows, &mut slots);
    assert_eq!(rt; board.capacity(), 4);
    assert_eq!(rt; board.horizon(), 100);
    assert_eq!(rt; board.room(), 2);
    book(
        &rt,
        &mut board,
        request(0, 10, 10, 1),
        1,
        0,
        Crew { mask: 1 },
    )?;
    book(
        &rt,
        &mut board,
        request(0, 20, 20, 3),
        2,
        0,
        Crew { mask: 14 },
    )?;
    assert!(rt; board.load_at(9).mask == 15);
    assert!(rt; board.load_at(10).mask == 14);
    assert_eq!(rt; board.cancel(1), Ok(()));
    assert_eq!(rt; board.next_number(), 3);
    let (rows, slots) = board.close();
    assert!(rt;
        &*rows == [row(2, 0, 20, Crew { mask: 14 }, State::Confirmed), no_row()].as_slice()
    );
    assert!(rt;
        &*slots
            == [
                crew(0, 14),
                crew(20, 0),
                crew(0, 0),
                crew(0, 0),
                crew(5, 6),
                crew(5, 6),
            ]
            .as_slice()
    );
    Ok(())
}

#[test]
fn full_and_used_up(rt: HostRuntime) -> Result<(), Fail> {
    let mut rows = [no_row(); 1];
    let mut slots = [crew(0, 0); 2];
    let mut board = Board::make(1, 10, &mut rows, &mut slots);
    let asked = request(0, 10, 10, 1);
    for _ in 0..99_998 {
        assert_eq!(rt; start(&mut board, asked, &EARLIEST_START), Ok(0));
    }
    book(&rt, &mut board, asked, 99_999, 0, Crew { mask: 1 })?;
    assert_eq!(rt;
        start(&mut board, request(0, 10, 9, 1), &EARLIEST_START),
        Err(6)
    );
    assert_eq!(rt; start(&mut board, asked, &EARLIEST_START), Err(7));
    assert_eq!(rt; board.cancel(99_999), Ok(()));
    assert_eq!(rt; board.next_number(), 100_000);
    assert_eq!(rt; start(&mut board, asked, &EARLIEST_START), Err(8));
    Ok(())
}

#[test]
fn a_crew_of_64_to_the_last_minute(rt: HostRuntime) -> Result<(), Fail> {
    let mut rows = [no_row(); 3];
    let mut slots = [crew(0, 0); 6];
    let mut board = Board::make(64, 1_048_576, &mut rows, &mut slots);
    let all = Crew { mask: u64::MAX };
    assert_eq!(rt;
        start(&mut board, request(0, 1, 1, 65), &EARLIEST_START),
        Err(5)
    );
    assert_eq!(rt;
        start(&mut board, request(0, 1, 1_048_577, 1), &EARLIEST_START),
        Err(6)
    );
    assert_eq!(rt;
        start(
            &mut board,
            request(u32::MAX, u32::MAX, 1_048_576, 1),
            &EARLIEST_START,
        ),
        Err(6)
    );
    book(
        &rt,
        &mut board,
        request(0, 1_048_576, 1_048_576, 64),
        1,
        0,
        all,
    )?;
    assert!(rt; board.slots() == [crew(0, u64::MAX), crew(1_048_576, 0)].as_slice());
    assert_eq!(rt;
        start(&mut board, request(0, 1, 1_048_576, 1), &EARLIEST_START),
        Err(9)
    );
    assert_eq!(rt; board.cancel(1), Ok(()));
    assert!(rt; board.slots() == [].as_slice());
    book(
        &rt,
        &mut board,
        request(1_048_575, 1, 1_048_576, 63),
        2,
        1_048_575,
        Crew {
            mask: u64::MAX >> 1,
        },
    )?;
    book(
        &rt,
        &mut board,
        request(1_048_574, 2, 1_048_576, 1),
        3,
        1_048_574,
        Crew { mask: 1 << 63 },
    )?;
    assert!(rt;
        board.slots()
            == [
                crew(1_048_574, 1 << 63),
                crew(1_048_575, u64::MAX),
                crew(1_048_576, 0),
            ]
            .as_slice()
    );
    Ok(())
}

#[test]
fn a_stock_of_4095(rt: HostRuntime) -> Result<(), Fail> {
    let mut rows = [no_row(); 2];
    let mut slots = [stock(0, 0); 4];
    let mut board = Board::make(4_095, 10, &mut rows, &mut slots);
    assert_eq!(rt;
        start(&mut board, request(0, 1, 10, 4_096), &EARLIEST_START),
        Err(5)
    );
    book(
        &rt,
        &mut board,
        request(0, 5, 5, 4_095),
        1,
        0,
        Stock { count: 4_095 },
    )?;
    assert_eq!(rt;
        start(&mut board, request(0, 6, 10, 1), &EARLIEST_START),
        Err(9)
    );
    assert_eq!(rt;
        start(&mut board, request(0, 5, 10, 4_095), &EARLIEST_START),
        Ok(5)
    );
    Ok(())
}

#[test]
fn moves_by_number(rt: HostRuntime) -> Result<(), Fail> {
    let mut rows = [no_row(); 3];
    let mut slots = [crew(0, 0); 6];
    let mut board = Board::make(8, 100, &mut rows, &mut slots);
    barred_while_held(&rt, &mut board, request(0, 30, 30, 4))?;
    book(
        &rt,
        &mut board,
        request(10, 10, 20, 4),
        2,
        10,
        Crew { mask: 240 },
    )?;
    assert!(rt;
        board.slots() == [crew(0, 15), crew(10, 255), crew(20, 15), crew(30, 0)].as_slice()
    );
    assert_eq!(rt; board.finish(1).map_err(u32::from), Err(12));
    assert_eq!(rt; board.begin(2), Ok(()));
    assert_eq!(rt; board.begin(2).map_err(u32::from), Err(12));
    assert_eq!(rt; board.cancel(2).map_err(u32::from), Err(12));
    assert_eq!(rt; board.cancel(1), Ok(()));
    assert!(rt; board.slots() == [crew(10, 240), crew(20, 0)].as_slice());
    assert!(rt; board.rows() == [row(2, 10, 20, Crew { mask: 240 }, State::UnderWay)].as_slice());
    assert_eq!(rt; board.cancel(1).map_err(u32::from), Err(11));
    assert_eq!(rt; board.finish(2), Ok(()));
    assert_eq!(rt; board.finish(2).map_err(u32::from), Err(11));
    assert!(rt; board.slots() == [].as_slice());
    Ok(())
}

#[test]
fn a_token_on_another_board(rt: HostRuntime) -> Result<(), Fail> {
    let mut rows = [no_row(); 2];
    let mut slots = [stock(0, 0); 4];
    let mut board = Board::make(5, 100, &mut rows, &mut slots);
    let mut other_rows = [no_row(); 2];
    let mut other_slots = [stock(0, 0); 4];
    let mut other = Board::make(5, 100, &mut other_rows, &mut other_slots);
    handed_back(&rt, &mut board, &mut other, request(0, 10, 10, 1))?;
    book(
        &rt,
        &mut other,
        request(0, 10, 10, 2),
        1,
        0,
        Stock { count: 2 },
    )?;
    book(
        &rt,
        &mut other,
        request(0, 10, 10, 3),
        2,
        0,
        Stock { count: 3 },
    )?;
    handed_back(&rt, &mut board, &mut other, request(0, 20, 20, 4))?;
    assert!(rt; board.slots() == [stock(0, 5), stock(10, 4), stock(20, 0)].as_slice());
    assert!(rt; other.slots() == [stock(0, 5), stock(10, 0)].as_slice());
    Ok(())
}
