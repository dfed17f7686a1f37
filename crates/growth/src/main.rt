// Times holds on a crew board: `growth ROWS TIMES` fills all but one of the rows and then holds and releases so often, by two policies. With no arguments it does nothing.

#![tactic(auto)]

use board::board::Board;
use board::grant::Grant;
use board::setup::blank_row;
use dispatch::entry::run_line;
use planning::policy::{EARLIEST_START, LARGEST_PRODUCT, Policy};
use planning::request::Request;
use sheet::item::Item;
use sheet::line::Line;
use sheet::order::Order;
use slots::slot::Slot;
use std::env;
use std::time::Instant;
use units::crew::Crew;

const MOST_ROWS: usize = 256;

const MOST_RECORDS: usize = 512;

const MECHANICS: u32 = 64;

const HORIZON: u32 = 1_048_576;

// Books one mechanic for 15 minutes every 10 minutes, so that each booking adds two records.
fn fill(board: &mut Board<'_, Crew>, bookings: u32) {
    let line = Line { at: 0, bytes: b"" };
    for i in 0..bookings {
        let ready = i.saturating_mul(10);
        let deadline = ready.saturating_add(15);
        let order = Order::Hold {
            ready,
            duration: 15,
            deadline,
            wanted: 1,
            welcome: ready,
        };
        let _ = run_line(board, Item::Entry(line, order));
    }
}

// Holds for the request, and releases what is granted.
fn hold_and_release<P: Policy>(board: &mut Board<'_, Crew>, request: Request, policy: &P) {
    if let Ok(grant) = board.hold(request, policy) {
        let Grant {
            number: _,
            start: _,
            end: _,
            claim: _,
            token,
        } = grant;
        board.release(token).unwrap();
    }
}

// Nanoseconds for so many holds and releases.
fn time<P: Policy>(
    rt: &HostRuntime,
    board: &mut Board<'_, Crew>,
    policy: &P,
    times: u32,
) -> anyhow::Result<u128> {
    let request = Request {
        ready: 0,
        duration: 40,
        deadline: HORIZON,
        wanted: 60,
    };
    let start = Instant::now(rt)?;
    for _ in 0..times {
        hold_and_release(board, request, policy);
    }
    Ok(start.elapsed(rt)?.as_nanos())
}

// Fills a board with so many rows, and prints what holds on it take.
fn measure(rt: &HostRuntime, rows: usize, times: u32) -> anyhow::Result<()> {
    let nobody = Crew { mask: 0 };
    let mut all_rows = [blank_row(nobody); MOST_ROWS];
    let mut all_slots = [Slot {
        minute: 0,
        value: nobody,
    }; MOST_RECORDS];
    let used = rows.min(MOST_ROWS);
    let mut board = Board::make(MECHANICS, HORIZON, &mut all_rows[0..used], &mut all_slots);
    fill(&mut board, used.saturating_sub(1) as u32);
    let earliest = time(rt, &mut board, &EARLIEST_START, times)?;
    let largest = time(rt, &mut board, &LARGEST_PRODUCT, times)?;
    let records = board.slots().len();
    println!(rt;
        "{used} rows, {records} records, {times} times: {earliest} ns by earliest start, {largest} ns by largest product"
    )?;
    Ok(())
}

fn main(rt: HostRuntime) -> anyhow::Result<()> {
    let mut words = env::args(&rt)?;
    let _ = words.next();
    let (Some(rows), Some(times)) = (words.next(), words.next()) else {
        return Ok(());
    };
    measure(&rt, rows.parse::<usize>()?, times.parse::<u32>()?)
}
