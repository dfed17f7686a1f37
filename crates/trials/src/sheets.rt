// Sheets with all that they print. The answers were worked out from the rules, minute by minute, and not by this program.
use dispatch::run::run;
use std::alloc::Global;
use std::process::Abort;
use std::test::Fail;

// Is this all that the sheet prints?
fn prints(rt: &impl Abort, heap: Global, sheet: &[u8], text: &str) -> Result<(), Fail> {
    let answers = run(heap, sheet)?;
    assert!(rt; answers.as_str() == text);
    Ok(())
}

#[test]
fn the_first_line_is_an_entry(rt: HostRuntime) -> Result<(), Fail> {
    prints(
        &rt,
        rt.alloc(),
        b"P 480 120 720 2 600\nL\n",
        "ok 1 480 3\nlist 2\n480 3\n600 0\n",
    )
}

#[test]
fn ends_of_sheets(rt: HostRuntime) -> Result<(), Fail> {
    prints(&rt, rt.alloc(), b"", "")?;
    prints(&rt, rt.alloc(), b"\n\n\n", "")?;
    prints(&rt, rt.alloc(), b"P 0 1 2 3 0", "ok 1 0 7\n")?;
    prints(&rt, rt.alloc(), b"L", "list 0\n")?;
    prints(&rt, rt.alloc(), b"L\n", "list 0\n")?;
    prints(&rt, rt.alloc(), b"# nothing\n\nL\n#", "list 0\n")
}

#[test]
fn bad_lines_are_answered_and_passed(rt: HostRuntime) -> Result<(), Fail> {
    prints(
        &rt,
        rt.alloc(),
        b"C 01\nC  1\nC 4294967296\nC 1 \nC 1\r\nc 1\nC\nC 1 2\nP 0 1 2 3\nP 0 1 2 3 4 5\nL \n\xff\x00\nC 4294967295\nL",
        "no 22\nno 22\nno 22\nno 22\nno 22\nno 22\nno 22\nno 22\nno 22\nno 22\nno 22\nno 22\nno 11\nlist 0\n",
    )
}

#[test]
fn refusals_of_holds(rt: HostRuntime) -> Result<(), Fail> {
    prints(
        &rt,
        rt.alloc(),
        b"P 0 0 10 1 0\nP 0 10 10 0 0\nP 0 10 10 9 0\nP 0 10 9 1 0\nP 10071 10 10081 1 0\nP 4294967295 4294967295 10080 1 0\nP 10070 10 10080 8 10070\nP 10070 10 10080 1 10070\n",
        "no 4\nno 5\nno 5\nno 6\nno 6\nno 6\nok 1 10070 255\nno 9\n",
    )
}

#[test]
fn moves_and_their_refusals(rt: HostRuntime) -> Result<(), Fail> {
    prints(
        &rt,
        rt.alloc(),
        b"P 0 60 60 8 0\nF 1\nB 1\nB 1\nC 1\nF 1\nF 1\nC 2\nP 0 60 120 8 0\nP 0 60 120 8 0\nC 3\nL\nC 2\nL\n",
        "ok 1 0 255\nno 12\nok\nno 12\nno 12\nok\nno 11\nno 11\nok 2 0 255\nlate 3 60\nno 11\nlist 2\n0 255\n60 0\nok\nlist 0\n",
    )
}

#[test]
fn a_cancel_inside_a_record(rt: HostRuntime) -> Result<(), Fail> {
    prints(
        &rt,
        rt.alloc(),
        b"P 0 30 30 4 0\nP 10 10 20 4 10\nL\nC 1\nL\n",
        "ok 1 0 15\nok 2 10 240\nlist 4\n0 15\n10 255\n20 15\n30 0\nok\nlist 2\n10 240\n20 0\n",
    )
}

#[test]
fn the_longest_sheet(rt: HostRuntime) -> Result<(), Fail> {
    let heap = rt.alloc();
    let mut sheet = vec![in heap; b'\n'; 65_535]?;
    sheet.push(b'L')?;
    prints(&rt, heap, &sheet, "list 0\n")?;
    sheet.push(b'\n')?;
    prints(&rt, heap, &sheet, "no 23\n")
}

// Every byte as a line of its own, the line's end too.
#[test]
fn every_byte(rt: HostRuntime) -> Result<(), Fail> {
    let heap = rt.alloc();
    let mut sheet = Vec::new(heap);
    let mut text = String::new(heap);
    for byte in 0..=u8::MAX {
        sheet.push(byte)?;
        sheet.push(b'\n')?;
        text.push_str(match byte {
            b'\n' | b'#' => "",
            b'L' => "list 0\n",
            _ => "no 22\n",
        })?;
    }
    prints(&rt, heap, &sheet, &text)
}

// A hold of half the crew, and its answer as the one with that index, on a board that such holds fill: 32 starts with two each.
fn half_the_crew(sheet: &mut String, text: &mut String, index: u16) -> Result<(), Fail> {
    let number = u32::from(index) + 1;
    let start = u32::from(index) % 64 / 2 * 315;
    let claim = if index % 2 == 0 { 15 } else { 240 };
    sheet.push_str("P 0 315 10080 4 10080\n")?;
    let heap = *text.allocator();
    text.push_str(&format!(in heap; "ok {number} {start} {claim}\n")?)?;
    Ok(())
}

// Holds fill the board; then each booking in turn is cancelled, and the next hold takes its place.
#[test]
fn a_thousand_entries(rt: HostRuntime) -> Result<(), Fail> {
    let heap = rt.alloc();
    let mut sheet = String::new(heap);
    let mut text = String::new(heap);
    for index in 0..64 {
        half_the_crew(&mut sheet, &mut text, index)?;
    }
    sheet.push_str("P 0 315 10080 4 10080\n")?;
    text.push_str("no 7\n")?;
    for index in 64..531 {
        let first = index - 63;
        sheet.push_str(&format!(in heap; "C {first}\n")?)?;
        text.push_str("ok\n")?;
        half_the_crew(&mut sheet, &mut text, index)?;
    }
    sheet.push_str("L")?;
    text.push_str("list 2\n0 255\n10080 0\n")?;
    prints(&rt, heap, sheet.as_bytes(), &text)
}
