//! Calendars against counting by hand, and the orders in which engines are tried.
use engine::calendar::Calendar;
use engine::roster::Roster;
use engine::supply::Supply;
use order::fullest::Fullest;
use order::order::EngineOrder;
use order::rota::Rota;
use std::array;
use std::test::Fail;
use text::calendar_text::read_calendar;

const PLATFORM: &[u8] =
    b"engines=5\ntag=0\nmarks=10\ntag=1\nmarks=1100\ntag=0\nmarks=100100\ntag=7\nmarks=1\ntag=0\nmarks=0110100100\n";

const MARKS: [&[u8]; 5] = [b"10", b"1100", b"100100", b"1", b"0110100100"];

const LONG: &[u8] =
    b"110100100011110000101011100010101111000011100101100110001111000010101110001010111100001110010110011000111100001010111000101011110000111001011001100011110000101011100010101111000011100101100110001111000010101110001010111100001110010110011001";

// The ones among n marks from a start, round and round.
// Counted by hand, to be apart from the code.
fn ones(marks: &[u8], start: usize, n: usize) -> u32 {
    let mut count: u32 = 0;
    let mut at = start;
    for _ in 0..n {
        if at >= marks.len() {
            at = 0;
        }
        if marks.get(at) == Some(&b'1') {
            count = count.saturating_add(1);
        }
        at = at.saturating_add(1);
    }
    count
}

// The fewest ones among n marks in a row, from any start.
fn fewest(marks: &[u8], n: usize) -> u32 {
    (0..marks.len())
        .map(|start| ones(marks, start, n))
        .min()
        .unwrap_or(u32::MAX)
}

#[test]
fn supplies_of_short_marks(rt: HostRuntime) -> Result<(), Fail> {
    let calendar = read_calendar(PLATFORM)?;
    for (engine, marks) in MARKS.iter().enumerate() {
        for n in 0..50 {
            assert_eq!(rt;
                calendar.supply(engine, n),
                fewest(marks, n as usize),
                "{}",
                engine
            );
        }
    }
    assert_eq!(rt; calendar.supply(0, 28_799), 14_399);
    assert_eq!(rt; calendar.supply(0, 28_800), 14_400);
    assert_eq!(rt; calendar.supply(0, 4_000_000_000), 14_400);
    assert_eq!(rt; (calendar.cycle(1), calendar.quota(1)), (4, 2));
    assert_eq!(rt;
        (
            calendar.supply(5, 28_800),
            calendar.cycle(5),
            calendar.quota(5),
        ),
        (0, 1, 0)
    );
    Ok(())
}

#[test]
fn supplies_of_long_marks(rt: HostRuntime) -> Result<(), Fail> {
    let mut text = Vec::new(rt.alloc());
    text.extend_from_slice(b"engines=1\ntag=3\nmarks=")?;
    text.extend_from_slice(LONG)?;
    text.extend_from_slice(b"\n")?;
    let calendar = read_calendar(text.as_slice())?;
    assert_eq!(rt; calendar.cycle(0), 240);
    for n in 0..245 {
        assert_eq!(rt; calendar.supply(0, n), fewest(LONG, n as usize), "{}", n);
    }
    Ok(())
}

#[test]
fn tags_of_a_roster(rt: HostRuntime) -> Result<(), Fail> {
    let calendar = read_calendar(PLATFORM)?;
    assert_eq!(rt; calendar.engines(), 5);
    assert_eq!(rt; calendar.tag(3), Some(7));
    assert_eq!(rt; calendar.tag(5), None);
    Ok(())
}

fn places<O: EngineOrder>(order: &O, roster: &Calendar, loads: &[u32; 16]) -> [Option<usize>; 4] {
    array::from_fn(|k| order.place(roster, 0, loads, k))
}

#[test]
fn fullest_first(rt: HostRuntime) -> Result<(), Fail> {
    let calendar = read_calendar(PLATFORM)?;
    let mut loads = [0; 16];
    assert_eq!(rt;
        places(&Fullest, &calendar, &loads),
        [Some(0), Some(2), Some(4), None]
    );
    loads[4] = 9;
    loads[2] = 9;
    loads[1] = 99;
    assert_eq!(rt;
        places(&Fullest, &calendar, &loads),
        [Some(2), Some(4), Some(0), None]
    );
    Ok(())
}

#[test]
fn round_the_rota(rt: HostRuntime) -> Result<(), Fail> {
    let calendar = read_calendar(PLATFORM)?;
    let loads = [0; 16];
    let mut rota = Rota::new();
    assert_eq!(rt;
        places(&rota, &calendar, &loads),
        [Some(0), Some(2), Some(4), None]
    );
    rota.tell(0, 2);
    rota.tell(1, 1);
    assert_eq!(rt;
        places(&rota, &calendar, &loads),
        [Some(4), Some(0), Some(2), None]
    );
    rota.tell(0, 4);
    assert_eq!(rt;
        places(&rota, &calendar, &loads),
        [Some(0), Some(2), Some(4), None]
    );
    Ok(())
}
