//! A board that runs, tick by tick.
use board::board::Board;
use board::refusal::Refusal;
use dispatch::candidate::Next;
use dispatch::table::LAST;
use engine::calendar::Calendar;
use engine::roster::ENGINES;
use order::fullest::Fullest;
use running::running::Running;
use slack::proportional::Proportional;
use std::process::Abort;
use std::test::Fail;
use text::calendar_text::read_calendar;

const PLATFORM: &[u8] = b"engines=2\ntag=0\nmarks=1\ntag=1\nmarks=1\n";

// Sub-task 0 from 0 to 8 on tag 0, and then by the branch 2 on tag 1 or 3 on tag 0, both from 8 to 20.
const JOB: &[u8] =
    b"job=7\nperiod=20\ndeadline=20\nnodes=4\nkind=subtask\ntag=0\nticks=2\nafter=-\nkind=conditional\nafter=0\nkind=subtask\ntag=1\nticks=3\nafter=1\nkind=subtask\ntag=0\nticks=1\nafter=1\n";

// One sub-task of tag 1 in every two ticks.
const SMALL: &[u8] =
    b"job=9\nperiod=2\ndeadline=2\nnodes=1\nkind=subtask\ntag=1\nticks=1\nafter=-\n";

// Two conditionals, of two and three branches.
const SIX: &[u8] =
    b"job=6\nperiod=20\ndeadline=20\nnodes=8\nkind=subtask\ntag=0\nticks=1\nafter=-\n\
    kind=conditional\nafter=0\nkind=subtask\ntag=0\nticks=1\nafter=1\nkind=subtask\ntag=0\nticks=1\nafter=1\n\
    kind=conditional\nafter=0\nkind=subtask\ntag=0\nticks=1\nafter=4\nkind=subtask\ntag=0\nticks=1\nafter=4\n\
    kind=subtask\ntag=0\nticks=1\nafter=4\n";

const SIXTEEN: &[u8] = b"engines=16\n\
    tag=0\nmarks=1\ntag=1\nmarks=1\ntag=2\nmarks=1\ntag=3\nmarks=1\n\
    tag=4\nmarks=1\ntag=5\nmarks=1\ntag=6\nmarks=1\ntag=7\nmarks=1\n\
    tag=0\nmarks=1\ntag=1\nmarks=1\ntag=2\nmarks=1\ntag=3\nmarks=1\n\
    tag=4\nmarks=1\ntag=5\nmarks=1\ntag=6\nmarks=1\ntag=7\nmarks=1\n";

// So many ticks in which all is served and reported as done, then an arrival of a job with a branch number, and its answer; 0 where it is granted.
const ARRIVALS: [(u32, u32, u32, u32); 21] = [
    (0, 8, 0, 11),
    (0, 65_545, 9, 11),
    (0, 7, 2, 12),
    (0, 7, 1, 0),
    (0, 7, 2, 12),
    (0, 7, 0, 13),
    (0, 9, 1, 12),
    (0, 6, 6, 12),
    (0, 6, 4_294_967_295, 12),
    (0, 6, 5, 0),
    (0, 9, 0, 0),
    (0, 9, 0, 13),
    (0, 0, 0, 11),
    (1, 9, 0, 13),
    (1, 9, 0, 0),
    (0, 9, 0, 13),
    (17, 9, 0, 0),
    (0, 7, 0, 13),
    (1, 7, 0, 0),
    (0, 6, 0, 0),
    (0, 9, 1, 12),
];

// The jobs that are unloaded, and the answer.
const UNLOADS: [(u32, u32); 6] = [(7, 0), (7, 11), (8, 11), (9, 0), (65_542, 11), (6, 0)];

// The masks of what is served and of what is done, and the answer.
const MASKS: [(u16, u16, u32); 9] = [
    (4, 0, 14),
    (0, 4, 14),
    (0, 0x8000, 14),
    (7, 3, 14),
    (3, 7, 14),
    (0xffff, 0xffff, 14),
    (3, 3, 0),
    (0, 3, 0),
    (0, 0, 0),
];

const ALL_MASKS: [(u16, u16, u32); 2] = [(0xffff, 0xffff, 0), (0, 0x8000, 0)];

type TrialBoard = Board<Calendar, Proportional, Fullest>;

type TrialRun = Running<Calendar, Proportional, Fullest>;

fn started() -> Result<TrialRun, Fail> {
    let mut board = Board::new(read_calendar(PLATFORM)?, Proportional, Fullest);
    board.load(JOB)?;
    Ok(Running::start(board))
}

// The number and the place of a refusal; 0 and 0 where the call was granted.
fn answer_to<T: Copy>(answer: Result<T, Refusal>) -> (u32, u32) {
    match answer {
        Ok(_) => (0, 0),
        Err(refusal) => (refusal.number(), refusal.place()),
    }
}

// Takes so many ticks in which no engine is served.
fn wait(rt: &impl Abort, run: &mut TrialRun, ticks: u32) {
    let mut ran = [None; ENGINES];
    for i in 0..ticks {
        assert_eq!(rt; run.tick(0, 0, &mut ran), Ok(0), "{}", i);
    }
}

#[test]
fn runs_by_branch(rt: HostRuntime) -> Result<(), Fail> {
    let mut run = started()?;
    let mut ran = [None; ENGINES];
    let first = Next { job: 7, node: 0 };
    assert_eq!(rt; run.next(0), None);
    run.arrive(7, 1)?;
    assert_eq!(rt;
        (run.next(0), run.next(1), run.next(2), run.next(16)),
        (Some(first), None, None, None)
    );
    assert_eq!(rt; run.tick(1, 0, &mut ran)?, 0);
    assert_eq!(rt; (ran[0], ran[1]), (Some(first), None));
    assert_eq!(rt; run.tick(3, 0, &mut ran)?, 0);
    assert_eq!(rt; run.next(0), None);
    wait(&rt, &mut run, 5);
    assert_eq!(rt; run.next(0), None);
    wait(&rt, &mut run, 1);
    assert_eq!(rt;
        (run.next(0), run.next(1)),
        (Some(Next { job: 7, node: 3 }), None)
    );
    Ok(())
}

#[test]
fn runs_late(rt: HostRuntime) -> Result<(), Fail> {
    let mut run = started()?;
    let mut ran = [None; ENGINES];
    run.arrive(7, 0)?;
    // The report ends the work before its ticks are over.
    assert_eq!(rt; run.tick(1, 1, &mut ran)?, 0);
    wait(&rt, &mut run, 18);
    assert_eq!(rt;
        (run.next(0), run.next(1)),
        (None, Some(Next { job: 7, node: 2 }))
    );
    assert_eq!(rt; run.late_total(), 0);
    assert_eq!(rt; run.tick(2, 0, &mut ran)?, 1);
    assert_eq!(rt; (ran[0], ran[1]), (None, Some(Next { job: 7, node: 2 })));
    assert_eq!(rt; (run.late_total(), run.next(1)), (1, None));
    Ok(())
}

// A board with the three jobs.
fn board_of_three() -> Result<TrialBoard, Fail> {
    let mut board = Board::new(read_calendar(PLATFORM)?, Proportional, Fullest);
    board.load(JOB)?;
    board.load(SMALL)?;
    board.load(SIX)?;
    Ok(board)
}

// Takes so many ticks in which all is served and done.
fn serve(rt: &impl Abort, run: &mut TrialRun, ticks: u32) {
    for i in 0..ticks {
        assert_eq!(rt;
            answer_to(run.tick(3, 3, &mut [None; ENGINES])),
            (0, 0),
            "{}",
            i
        );
    }
}

#[test]
fn arrivals_refused(rt: HostRuntime) -> Result<(), Fail> {
    let mut run = Running::start(board_of_three()?);
    for (i, (ticks, job, branch, answer)) in ARRIVALS.iter().enumerate() {
        serve(&rt, &mut run, *ticks);
        assert_eq!(rt; answer_to(run.arrive(*job, *branch)), (*answer, 0), "{}", i);
    }
    Ok(())
}

#[test]
fn unloads_refused(rt: HostRuntime) -> Result<(), Fail> {
    let mut board = board_of_three()?;
    for (i, (job, answer)) in UNLOADS.iter().enumerate() {
        assert_eq!(rt; answer_to(board.unload(*job)), (*answer, 0), "{}", i);
    }
    Ok(())
}

// A tick that is refused leaves what ran as it was.
fn try_masks(rt: &impl Abort, platform: &[u8], cases: &[(u16, u16, u32)]) -> Result<(), Fail> {
    let board = Board::new(read_calendar(platform)?, Proportional, Fullest);
    let mut run = Running::start(board);
    for (i, (served, done, answer)) in cases.iter().enumerate() {
        let mut ran = [Some(Next { job: 9, node: 9 }); ENGINES];
        assert_eq!(rt;
            answer_to(run.tick(*served, *done, &mut ran)),
            (*answer, 0),
            "{}",
            i
        );
        assert_eq!(rt; ran[15].is_some(), *answer != 0, "{}", i);
    }
    Ok(())
}

#[test]
fn ticks_refused(rt: HostRuntime) -> Result<(), Fail> {
    try_masks(&rt, PLATFORM, &MASKS)?;
    try_masks(&rt, SIXTEEN, &ALL_MASKS)?;
    // A clock of 2,000,000,000 is too far for a test.
    assert_eq!(rt; LAST, 2_000_000_000);
    assert_eq!(rt; Refusal::LastClock.to_string(rt.alloc())?.as_str(), "15,0");
    Ok(())
}

// The sheet of JOB has 56 bytes.
#[test]
fn sheets_refused(rt: HostRuntime) -> Result<(), Fail> {
    let board = board_of_three()?;
    let mut none = [b'#'; 0];
    assert_eq!(rt; answer_to(board.sheet(8, &mut none)), (11, 0));
    assert_eq!(rt; answer_to(board.sheet(7, &mut none)), (16, 0));
    let mut short = [b'#'; 55];
    assert_eq!(rt; answer_to(board.sheet(7, &mut short)), (16, 0));
    assert_eq!(rt; short, [b'#'; 55]);
    let mut exact = [b'#'; 56];
    assert_eq!(rt; answer_to(board.sheet(7, &mut exact)), (0, 0));
    assert_eq!(rt;
        &exact,
        b"job=7\nchoice=0\nnode=0,0,0,8\nnode=2,1,8,20\nnode=3,0,8,20\n"
    );
    Ok(())
}

#[test]
fn running_sheets_refused(rt: HostRuntime) -> Result<(), Fail> {
    let run = Running::start(board_of_three()?);
    let mut short = [b'#'; 30];
    assert_eq!(rt; answer_to(run.sheet(0, &mut short)), (11, 0));
    assert_eq!(rt; answer_to(run.sheet(9, &mut short)), (0, 0));
    assert_eq!(rt; &short, b"job=9\nchoice=0\nnode=0,1,0,2\n##");
    let mut short = [b'#'; 27];
    assert_eq!(rt; answer_to(run.sheet(9, &mut short)), (16, 0));
    assert_eq!(rt; short, [b'#'; 27]);
    Ok(())
}
