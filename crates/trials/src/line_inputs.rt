//! Inputs with job texts whose lines are not the due ones: question 2.
use crate::inputs::Input;

pub const LINE_INPUTS: [Input; 32] = [
    (
        "text without a line",
        b"engines=1|tag=0|marks=1||x",
        "answer=2,1|",
    ),
    (
        "the word job alone",
        b"engines=1|tag=0|marks=1||job|",
        "answer=2,1|",
    ),
    (
        "a job number without a byte 10",
        b"engines=1|tag=0|marks=1||job=7",
        "answer=2,1|",
    ),
    (
        "keys in capitals or with spaces",
        b"engines=1|tag=0|marks=1||JOB=7|| job=7||job =7||\tjob=7||jobs=7|",
        "answer=2,1|answer=2,1|answer=2,1|answer=2,1|answer=2,1|",
    ),
    (
        "a platform in the place of a job",
        b"engines=1|tag=0|marks=1||engines=1|tag=0|marks=1|",
        "answer=2,1|",
    ),
    (
        "the period is missing",
        b"engines=1|tag=0|marks=1|\
          |job=7|deadline=100|nodes=1|kind=subtask|tag=0|ticks=1|after=-|",
        "answer=2,2|",
    ),
    (
        "deadline before period",
        b"engines=1|tag=0|marks=1|\
          |job=7|deadline=100|period=100|nodes=1|kind=subtask|tag=0|ticks=1|after=-|",
        "answer=2,2|",
    ),
    (
        "the deadline is missing",
        b"engines=1|tag=0|marks=1|\
          |job=7|period=100|nodes=1|kind=subtask|tag=0|ticks=1|after=-|",
        "answer=2,3|",
    ),
    (
        "the count of nodes is missing",
        b"engines=1|tag=0|marks=1|\
          |job=7|period=100|deadline=100|kind=subtask|tag=0|ticks=1|after=-|",
        "answer=2,4|",
    ),
    (
        "the job ends after its count of nodes",
        b"engines=1|tag=0|marks=1||job=7|period=100|deadline=100|nodes=1|",
        "answer=2,5|",
    ),
    (
        "a kind in the place of its key",
        b"engines=1|tag=0|marks=1|\
          |job=7|period=100|deadline=100|nodes=1|subtask|tag=0|ticks=1|after=-|",
        "answer=2,5|",
    ),
    (
        "the kind is missing",
        b"engines=1|tag=0|marks=1|\
          |job=7|period=100|deadline=100|nodes=1|tag=0|ticks=1|after=-|",
        "answer=2,5|",
    ),
    (
        "the tag is missing",
        b"engines=1|tag=0|marks=1|\
          |job=7|period=100|deadline=100|nodes=1|kind=subtask|ticks=1|after=-|",
        "answer=2,6|",
    ),
    (
        "the ticks are missing",
        b"engines=1|tag=0|marks=1|\
          |job=7|period=100|deadline=100|nodes=1|kind=subtask|tag=0|after=-|",
        "answer=2,7|",
    ),
    (
        "ticks before tag",
        b"engines=1|tag=0|marks=1|\
          |job=7|period=100|deadline=100|nodes=1|kind=subtask|ticks=1|tag=0|after=-|",
        "answer=2,6|",
    ),
    (
        "the list is missing",
        b"engines=1|tag=0|marks=1|\
          |job=7|period=100|deadline=100|nodes=1|kind=subtask|tag=0|ticks=1|",
        "answer=2,8|",
    ),
    (
        "the list ends without a byte 10",
        b"engines=1|tag=0|marks=1|\
          |job=7|period=100|deadline=100|nodes=1|kind=subtask|tag=0|ticks=1|after=-",
        "answer=2,8|",
    ),
    (
        "a tag of an alternative",
        b"engines=1|tag=0|marks=1|\
          |job=7|period=100|deadline=100|nodes=2|\
          kind=subtask|tag=0|ticks=1|after=-|kind=alternative|tag=0|after=0|",
        "answer=2,10|",
    ),
    (
        "ticks of a conditional",
        b"engines=1|tag=0|marks=1|\
          |job=7|period=100|deadline=100|nodes=2|\
          kind=subtask|tag=0|ticks=1|after=-|kind=conditional|ticks=1|after=0|",
        "answer=2,10|",
    ),
    (
        "the list of an alternative is missing",
        b"engines=1|tag=0|marks=1|\
          |job=7|period=100|deadline=100|nodes=2|\
          kind=subtask|tag=0|ticks=1|after=-|kind=alternative|",
        "answer=2,10|",
    ),
    (
        "one node fewer than is said",
        b"engines=1|tag=0|marks=1|\
          |job=7|period=100|deadline=100|nodes=2|kind=subtask|tag=0|ticks=1|after=-|",
        "answer=2,9|",
    ),
    (
        "one node more than is said",
        b"engines=1|tag=0|marks=1|\
          |job=7|period=100|deadline=100|nodes=1|\
          kind=subtask|tag=0|ticks=1|after=-|kind=subtask|tag=0|ticks=1|after=-|",
        "answer=2,9|",
    ),
    (
        "a letter after the last line",
        b"engines=1|tag=0|marks=1|\
          |job=7|period=100|deadline=100|nodes=1|kind=subtask|tag=0|ticks=1|after=-|x",
        "answer=2,9|",
    ),
    (
        "a space after the last line",
        b"engines=1|tag=0|marks=1|\
          |job=7|period=100|deadline=100|nodes=1|kind=subtask|tag=0|ticks=1|after=-| ",
        "answer=2,9|",
    ),
    (
        "a byte 13 after the last line",
        b"engines=1|tag=0|marks=1|\
          |job=7|period=100|deadline=100|nodes=1|kind=subtask|tag=0|ticks=1|after=-|\r",
        "answer=2,9|",
    ),
    (
        "a line with an x after the last one",
        b"engines=1|tag=0|marks=1|\
          |job=7|period=100|deadline=100|nodes=1|kind=subtask|tag=0|ticks=1|after=-|x|\
          |job=7|period=100|deadline=100|nodes=1|kind=subtask|tag=0|ticks=1|after=-|after=-|\
          |job=7|period=100|deadline=100|nodes=1|kind=subtask|tag=0|ticks=1|after=-|=|",
        "answer=2,9|answer=2,9|answer=2,9|",
    ),
    (
        "the job follows itself without an empty line",
        b"engines=1|tag=0|marks=1|\
          |job=7|period=100|deadline=100|nodes=1|\
          kind=subtask|tag=0|ticks=1|after=-|job=7|period=100|deadline=100|nodes=1|\
          kind=subtask|tag=0|ticks=1|after=-|",
        "answer=2,9|",
    ),
    (
        "an empty line after line 4",
        b"engines=1|tag=0|marks=1|\
          |job=7|period=100|deadline=100|nodes=1||kind=subtask|tag=0|ticks=1|after=-|",
        "answer=2,5|answer=2,1|",
    ),
    (
        "23 of 24 nodes",
        b"engines=1|tag=0|marks=1|\
          |job=7|period=100|deadline=100|nodes=24|\
          kind=subtask|tag=0|ticks=1|after=-|kind=subtask|tag=0|ticks=1|after=-|\
          kind=subtask|tag=0|ticks=1|after=-|kind=subtask|tag=0|ticks=1|after=-|\
          kind=subtask|tag=0|ticks=1|after=-|kind=subtask|tag=0|ticks=1|after=-|\
          kind=subtask|tag=0|ticks=1|after=-|kind=subtask|tag=0|ticks=1|after=-|\
          kind=subtask|tag=0|ticks=1|after=-|kind=subtask|tag=0|ticks=1|after=-|\
          kind=subtask|tag=0|ticks=1|after=-|kind=subtask|tag=0|ticks=1|after=-|\
          kind=subtask|tag=0|ticks=1|after=-|kind=subtask|tag=0|ticks=1|after=-|\
          kind=subtask|tag=0|ticks=1|after=-|kind=subtask|tag=0|ticks=1|after=-|\
          kind=subtask|tag=0|ticks=1|after=-|kind=subtask|tag=0|ticks=1|after=-|\
          kind=subtask|tag=0|ticks=1|after=-|kind=subtask|tag=0|ticks=1|after=-|\
          kind=subtask|tag=0|ticks=1|after=-|kind=subtask|tag=0|ticks=1|after=-|\
          kind=subtask|tag=0|ticks=1|after=-|",
        "answer=2,97|",
    ),
    (
        "25 of 24 nodes",
        b"engines=1|tag=0|marks=1|\
          |job=7|period=100|deadline=100|nodes=24|\
          kind=subtask|tag=0|ticks=1|after=-|kind=subtask|tag=0|ticks=1|after=-|\
          kind=subtask|tag=0|ticks=1|after=-|kind=subtask|tag=0|ticks=1|after=-|\
          kind=subtask|tag=0|ticks=1|after=-|kind=subtask|tag=0|ticks=1|after=-|\
          kind=subtask|tag=0|ticks=1|after=-|kind=subtask|tag=0|ticks=1|after=-|\
          kind=subtask|tag=0|ticks=1|after=-|kind=subtask|tag=0|ticks=1|after=-|\
          kind=subtask|tag=0|ticks=1|after=-|kind=subtask|tag=0|ticks=1|after=-|\
          kind=subtask|tag=0|ticks=1|after=-|kind=subtask|tag=0|ticks=1|after=-|\
          kind=subtask|tag=0|ticks=1|after=-|kind=subtask|tag=0|ticks=1|after=-|\
          kind=subtask|tag=0|ticks=1|after=-|kind=subtask|tag=0|ticks=1|after=-|\
          kind=subtask|tag=0|ticks=1|after=-|kind=subtask|tag=0|ticks=1|after=-|\
          kind=subtask|tag=0|ticks=1|after=-|kind=subtask|tag=0|ticks=1|after=-|\
          kind=subtask|tag=0|ticks=1|after=-|kind=subtask|tag=0|ticks=1|after=-|\
          kind=subtask|tag=0|ticks=1|after=-|",
        "answer=2,101|",
    ),
    (
        "lines that end with bytes 13 and 10",
        b"engines=1|tag=0|marks=1|\
          |job=7\r|period=100\r|deadline=100\r|nodes=1\r|kind=subtask\r|tag=0\r|ticks=1\r|after=-\r|",
        "answer=3,1|",
    ),
    (
        "a comment",
        b"engines=1|tag=0|marks=1||# a job|job=7|period=100|deadline=100|nodes=1|\
          kind=subtask|tag=0|ticks=1|after=-|\
          |job=7|period=100|deadline=100|nodes=1|kind=subtask|tag=0|ticks=1|after=-|# the end|",
        "answer=2,1|answer=2,9|",
    ),
];
