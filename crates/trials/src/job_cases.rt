//! Texts of jobs whose lines are at fault, by question.
use crate::tests::Case;

/// Question 2 of jobs: the due line with its key and byte 10, and nothing after the last.
pub const JOB_LINES: [Case; 19] = [
    (b"\n", 2, 1),
    (b"job", 2, 1),
    (b"job=7", 2, 1),
    (b"job=x", 2, 1),
    (b"job\n", 2, 1),
    (b"Job=7\n", 2, 1),
    (b" job=7\n", 2, 1),
    (b"jobs=7\n", 2, 1),
    (b"period=100\njob=7\n", 2, 1),
    (b"job=7\n", 2, 2),
    (b"job=7\nperiod=100\n\ndeadline=100\n", 2, 3),
    (b"job=7\nperiod=100\ndeadline=100\nnodes=24\n", 2, 5),
    (
        b"job=7\nperiod=100\ndeadline=100\nnodes=1\nkind=subtask\nticks=1\n",
        2,
        6,
    ),
    (
        b"job=7\nperiod=100\ndeadline=100\nnodes=1\nkind=alternative\ntag=0\n",
        2,
        6,
    ),
    (
        b"job=7\nperiod=100\ndeadline=100\nnodes=1\nkind=subtask\ntag=0\nticks=1\nafter=-",
        2,
        8,
    ),
    (
        b"job=7\nperiod=100\ndeadline=100\nnodes=1\nkind=subtask\ntag=0\nticks=1\nafter=-\n\n",
        2,
        9,
    ),
    (
        b"job=7\nperiod=100\ndeadline=100\nnodes=1\nkind=subtask\ntag=0\nticks=1\nafter=-\nx",
        2,
        9,
    ),
    (
        b"job=7\nperiod=100\ndeadline=100\nnodes=1\nkind=subtask\ntag=0\nticks=1\nafter=-\nkind=subtask\n",
        2,
        9,
    ),
    (
        b"job=7\nperiod=100\ndeadline=100\nnodes=2\nkind=subtask\ntag=0\nticks=1\nafter=-\n",
        2,
        9,
    ),
];

/// Question 3 of jobs: a number, a kind or a list that is well formed.
pub const JOB_FORMS: [Case; 29] = [
    (b"job=\n", 3, 1),
    (b"job=07\n", 3, 1),
    (b"job=00\n", 3, 1),
    (b"job=1000000000\n", 3, 1),
    (b"job=0000000007\n", 3, 1),
    (b"job=+7\n", 3, 1),
    (b"job=-\n", 3, 1),
    (b"job= 7\n", 3, 1),
    (b"job=7 \n", 3, 1),
    (b"job=7\r\n", 3, 1),
    (b"job==7\n", 3, 1),
    (b"job=7,8\n", 3, 1),
    (b"job=7\nperiod=1e2\n", 3, 2),
    (b"job=7\nperiod=100\ndeadline=1_0\n", 3, 3),
    (b"job=7\nperiod=100\ndeadline=100\nnodes=\n", 3, 4),
    (b"job=7\nperiod=100\ndeadline=100\nnodes=1\nkind=\n", 3, 5),
    (
        b"job=7\nperiod=100\ndeadline=100\nnodes=1\nkind=Subtask\n",
        3,
        5,
    ),
    (
        b"job=7\nperiod=100\ndeadline=100\nnodes=1\nkind=subtasks\n",
        3,
        5,
    ),
    (
        b"job=7\nperiod=100\ndeadline=100\nnodes=1\nkind=fork\n",
        3,
        5,
    ),
    (
        b"job=7\nperiod=100\ndeadline=100\nnodes=1\nkind=subtask\ntag=a\n",
        3,
        6,
    ),
    (
        b"job=7\nperiod=100\ndeadline=100\nnodes=1\nkind=subtask\ntag=0\nticks=0x1\n",
        3,
        7,
    ),
    (
        b"job=7\nperiod=100\ndeadline=100\nnodes=1\nkind=subtask\ntag=0\nticks=1\nafter=\n",
        3,
        8,
    ),
    (
        b"job=7\nperiod=100\ndeadline=100\nnodes=1\nkind=subtask\ntag=0\nticks=1\nafter=--\n",
        3,
        8,
    ),
    (
        b"job=7\nperiod=100\ndeadline=100\nnodes=1\nkind=subtask\ntag=0\nticks=1\nafter=0,\n",
        3,
        8,
    ),
    (
        b"job=7\nperiod=100\ndeadline=100\nnodes=1\nkind=subtask\ntag=0\nticks=1\nafter=,0\n",
        3,
        8,
    ),
    (
        b"job=7\nperiod=100\ndeadline=100\nnodes=1\nkind=subtask\ntag=0\nticks=1\nafter=0,0\n",
        3,
        8,
    ),
    (
        b"job=7\nperiod=100\ndeadline=100\nnodes=1\nkind=subtask\ntag=0\nticks=1\nafter=2,1\n",
        3,
        8,
    ),
    (
        b"job=7\nperiod=100\ndeadline=100\nnodes=1\nkind=subtask\ntag=0\nticks=1\nafter=0,01\n",
        3,
        8,
    ),
    (
        b"job=7\nperiod=100\ndeadline=100\nnodes=1\nkind=subtask\ntag=0\nticks=1\nafter=0,1000000000\n",
        3,
        8,
    ),
];

/// Question 4 of jobs: a value in its range.
pub const JOB_RANGES: [Case; 23] = [
    (b"job=0\n", 4, 1),
    (b"job=65536\n", 4, 1),
    (b"job=999999999\n", 4, 1),
    (b"job=65535\nperiod=0\n", 4, 2),
    (b"job=7\nperiod=7\n", 4, 2),
    (b"job=7\nperiod=14399\n", 4, 2),
    (b"job=7\nperiod=28800\n", 4, 2),
    (b"job=7\nperiod=100\ndeadline=0\n", 4, 3),
    (b"job=7\nperiod=100\ndeadline=101\n", 4, 3),
    (b"job=7\nperiod=14400\ndeadline=14401\n", 4, 3),
    (b"job=7\nperiod=100\ndeadline=100\nnodes=0\n", 4, 4),
    (b"job=7\nperiod=100\ndeadline=100\nnodes=25\n", 4, 4),
    (
        b"job=7\nperiod=100\ndeadline=100\nnodes=1\nkind=subtask\ntag=8\n",
        4,
        6,
    ),
    (
        b"job=7\nperiod=100\ndeadline=100\nnodes=1\nkind=subtask\ntag=7\nticks=0\n",
        4,
        7,
    ),
    (
        b"job=7\nperiod=100\ndeadline=100\nnodes=1\nkind=subtask\ntag=0\nticks=14401\n",
        4,
        7,
    ),
    (
        b"job=7\nperiod=100\ndeadline=100\nnodes=1\nkind=subtask\ntag=0\nticks=14400\nafter=0\n",
        4,
        8,
    ),
    (
        b"job=7\nperiod=100\ndeadline=100\nnodes=2\nkind=subtask\ntag=0\nticks=1\nafter=-\nkind=alternative\nafter=1\n",
        4,
        10,
    ),
    (
        b"job=7\nperiod=100\ndeadline=100\nnodes=2\nkind=subtask\ntag=0\nticks=1\nafter=-\nkind=conditional\nafter=0,1\n",
        4,
        10,
    ),
    (
        b"job=7\nperiod=100\ndeadline=100\nnodes=3\nkind=subtask\ntag=0\nticks=1\nafter=-\nkind=conditional\nafter=2\n",
        4,
        10,
    ),
    (
        b"job=7\nperiod=100\ndeadline=100\nnodes=2\nkind=subtask\ntag=0\nticks=1\nafter=-\nkind=alternative\nafter=24\n",
        4,
        10,
    ),
    (
        b"job=7\nperiod=100\ndeadline=100\nnodes=2\nkind=subtask\ntag=0\nticks=1\nafter=-\nkind=alternative\nafter=0,999999999\n",
        4,
        10,
    ),
    (
        b"job=7\nperiod=100\ndeadline=100\nnodes=1\nkind=subtask\ntag=0\nticks=1\nafter=0\nx",
        4,
        8,
    ),
    (b"job=0\nperiod=x\ndeadline", 4, 1),
];
