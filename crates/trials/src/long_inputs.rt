//! Long inputs.

/// What a case is of, the front of its input, a byte and how often it stands behind the front, the back, and what the program prints. `|` stands for byte 10.
pub type Filled = (
    &'static str,
    &'static [u8],
    u8,
    usize,
    &'static [u8],
    &'static str,
);

pub const LONG_INPUTS: [Filled; 11] = [
    (
        "a job text of 4,096 bytes",
        b"engines=1|tag=0|marks=1|\
          |job=7|period=100|deadline=100|nodes=1|kind=subtask|tag=0|ticks=1|after=-|",
        b'x',
        4022,
        b"||job=1|period=100|deadline=100|nodes=1|kind=subtask|tag=0|ticks=1|after=-|",
        "answer=2,9|answer=0|job=1|choice=0|node=0,0,0,100|",
    ),
    (
        "a job text of 4,097 bytes",
        b"engines=1|tag=0|marks=1|\
          |job=7|period=100|deadline=100|nodes=1|kind=subtask|tag=0|ticks=1|after=-|",
        b'x',
        4023,
        b"||job=1|period=100|deadline=100|nodes=1|kind=subtask|tag=0|ticks=1|after=-|",
        "answer=1,0|answer=0|job=1|choice=0|node=0,0,0,100|",
    ),
    (
        "a job number of 4,091 digits",
        b"engines=1|tag=0|marks=1||job=",
        b'1',
        4091,
        b"||job=1|period=100|deadline=100|nodes=1|kind=subtask|tag=0|ticks=1|after=-|",
        "answer=3,1|answer=0|job=1|choice=0|node=0,0,0,100|",
    ),
    (
        "a job number of 4,092 digits",
        b"engines=1|tag=0|marks=1||job=",
        b'1',
        4092,
        b"||job=1|period=100|deadline=100|nodes=1|kind=subtask|tag=0|ticks=1|after=-|",
        "answer=1,0|answer=0|job=1|choice=0|node=0,0,0,100|",
    ),
    (
        "a platform text of 4,096 bytes",
        b"engines=1|tag=0|marks=",
        b'1',
        4073,
        b"||job=1|period=100|deadline=100|nodes=1|kind=subtask|tag=0|ticks=1|after=-|",
        "answer=4,3|",
    ),
    (
        "a platform text of 4,097 bytes",
        b"engines=1|tag=0|marks=",
        b'1',
        4074,
        b"||job=1|period=100|deadline=100|nodes=1|kind=subtask|tag=0|ticks=1|after=-|",
        "answer=1,0|",
    ),
    (
        "an input of 65,536 bytes",
        b"engines=1|tag=0|marks=1|\
          |job=1|period=100|deadline=100|nodes=1|kind=subtask|tag=0|ticks=1|after=-||",
        b'x',
        65362,
        b"||job=2|period=100|deadline=100|nodes=1|kind=subtask|tag=0|ticks=1|after=-|",
        "answer=0|job=1|choice=0|node=0,0,0,100|answer=1,0|\
         answer=0|job=2|choice=0|node=0,0,0,100|",
    ),
    (
        "an input of 65,537 bytes",
        b"engines=1|tag=0|marks=1|\
          |job=1|period=100|deadline=100|nodes=1|kind=subtask|tag=0|ticks=1|after=-||",
        b'x',
        65363,
        b"||job=2|period=100|deadline=100|nodes=1|kind=subtask|tag=0|ticks=1|after=-|",
        "answer=1,0|",
    ),
    (
        "an input of 65,536 bytes whose platform is at fault",
        b"engines=0||",
        b'x',
        65525,
        b"",
        "answer=4,1|",
    ),
    (
        "an input of 65,537 bytes whose platform is at fault",
        b"engines=0||",
        b'x',
        65526,
        b"",
        "answer=1,0|",
    ),
    (
        "a job number of thirty zeros and a one",
        b"engines=1|tag=0|marks=1||job=",
        b'0',
        30,
        b"1||job=1|period=100|deadline=100|nodes=1|kind=subtask|tag=0|ticks=1|after=-|",
        "answer=3,1|answer=0|job=1|choice=0|node=0,0,0,100|",
    ),
];
