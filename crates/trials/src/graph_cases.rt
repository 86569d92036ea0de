//! Texts of jobs whose lines are right: forks at fault, and jobs that are read.
use crate::tests::Case;

/// Questions 5 and 6: the edges of each fork, and how many forks there are.
pub const JOB_FORKS: [Case; 15] = [
    (
        b"job=7\nperiod=100\ndeadline=100\nnodes=1\nkind=alternative\nafter=-\n",
        5,
        0,
    ),
    (
        b"job=7\nperiod=100\ndeadline=100\nnodes=3\nkind=conditional\nafter=-\nkind=subtask\ntag=0\nticks=1\nafter=0\nkind=subtask\ntag=0\nticks=1\nafter=0\n",
        5,
        0,
    ),
    (
        b"job=7\nperiod=100\ndeadline=100\nnodes=4\nkind=subtask\ntag=0\nticks=1\nafter=-\nkind=alternative\nafter=-\nkind=subtask\ntag=0\nticks=1\nafter=1\nkind=subtask\ntag=0\nticks=1\nafter=1\n",
        5,
        1,
    ),
    (
        b"job=7\nperiod=100\ndeadline=100\nnodes=2\nkind=subtask\ntag=0\nticks=1\nafter=-\nkind=conditional\nafter=0\n",
        5,
        1,
    ),
    (
        b"job=7\nperiod=100\ndeadline=100\nnodes=3\nkind=subtask\ntag=0\nticks=1\nafter=-\nkind=alternative\nafter=0\nkind=subtask\ntag=0\nticks=1\nafter=0,1\n",
        5,
        1,
    ),
    (
        b"job=7\nperiod=100\ndeadline=100\nnodes=6\nkind=subtask\ntag=0\nticks=1\nafter=-\nkind=conditional\nafter=0\nkind=subtask\ntag=0\nticks=1\nafter=1\nkind=subtask\ntag=0\nticks=1\nafter=1\nkind=subtask\ntag=0\nticks=1\nafter=1\nkind=subtask\ntag=0\nticks=1\nafter=1\n",
        5,
        1,
    ),
    (
        b"job=7\nperiod=100\ndeadline=100\nnodes=5\nkind=subtask\ntag=0\nticks=1\nafter=-\nkind=alternative\nafter=0\nkind=conditional\nafter=1\nkind=subtask\ntag=0\nticks=1\nafter=1\nkind=subtask\ntag=0\nticks=1\nafter=2\n",
        5,
        2,
    ),
    (
        b"job=7\nperiod=100\ndeadline=100\nnodes=5\nkind=subtask\ntag=0\nticks=1\nafter=-\nkind=conditional\nafter=0\nkind=alternative\nafter=-\nkind=subtask\ntag=0\nticks=1\nafter=1\nkind=subtask\ntag=0\nticks=1\nafter=0\n",
        5,
        1,
    ),
    // five alternatives
    (
        b"job=7\nperiod=100\ndeadline=100\nnodes=8\nkind=subtask\ntag=0\nticks=1\nafter=-\nkind=alternative\nafter=0\nkind=alternative\nafter=1\nkind=alternative\nafter=2\nkind=alternative\nafter=3\nkind=alternative\nafter=4\nkind=subtask\ntag=0\nticks=1\nafter=1,2,3,4,5\nkind=subtask\ntag=0\nticks=1\nafter=5\n",
        6,
        0,
    ),
    // five conditionals
    (
        b"job=7\nperiod=100\ndeadline=100\nnodes=8\nkind=subtask\ntag=0\nticks=1\nafter=-\nkind=conditional\nafter=0\nkind=conditional\nafter=1\nkind=conditional\nafter=2\nkind=conditional\nafter=3\nkind=conditional\nafter=4\nkind=subtask\ntag=0\nticks=1\nafter=1,2,3,4,5\nkind=subtask\ntag=0\nticks=1\nafter=5\n",
        6,
        0,
    ),
    // five alternatives, and the last has one edge out
    (
        b"job=7\nperiod=100\ndeadline=100\nnodes=7\nkind=subtask\ntag=0\nticks=1\nafter=-\nkind=alternative\nafter=0\nkind=alternative\nafter=1\nkind=alternative\nafter=2\nkind=alternative\nafter=3\nkind=alternative\nafter=4\nkind=subtask\ntag=0\nticks=1\nafter=1,2,3,4,5\n",
        5,
        5,
    ),
    // four alternatives and five conditionals
    (
        b"job=7\nperiod=100\ndeadline=100\nnodes=12\nkind=subtask\ntag=0\nticks=1\nafter=-\nkind=conditional\nafter=0\nkind=alternative\nafter=1\nkind=conditional\nafter=2\nkind=alternative\nafter=3\nkind=conditional\nafter=4\nkind=alternative\nafter=5\nkind=conditional\nafter=6\nkind=alternative\nafter=7\nkind=conditional\nafter=8\nkind=subtask\ntag=0\nticks=1\nafter=1,2,3,4,5,6,7,8,9\nkind=subtask\ntag=0\nticks=1\nafter=9\n",
        6,
        0,
    ),
    // four alternatives and four conditionals
    (
        b"job=7\nperiod=100\ndeadline=100\nnodes=11\nkind=subtask\ntag=0\nticks=1\nafter=-\nkind=alternative\nafter=0\nkind=alternative\nafter=1\nkind=alternative\nafter=2\nkind=alternative\nafter=3\nkind=conditional\nafter=4\nkind=conditional\nafter=5\nkind=conditional\nafter=6\nkind=conditional\nafter=7\nkind=subtask\ntag=0\nticks=1\nafter=1,2,3,4,5,6,7,8\nkind=subtask\ntag=0\nticks=1\nafter=8\n",
        0,
        0,
    ),
    // a fork with two edges out
    (
        b"job=7\nperiod=100\ndeadline=100\nnodes=4\nkind=subtask\ntag=0\nticks=1\nafter=-\nkind=conditional\nafter=0\nkind=subtask\ntag=0\nticks=1\nafter=1\nkind=subtask\ntag=0\nticks=1\nafter=1\n",
        0,
        0,
    ),
    // a fork with three edges out
    (
        b"job=7\nperiod=100\ndeadline=100\nnodes=5\nkind=subtask\ntag=0\nticks=1\nafter=-\nkind=alternative\nafter=0\nkind=subtask\ntag=0\nticks=1\nafter=1\nkind=subtask\ntag=0\nticks=1\nafter=1\nkind=subtask\ntag=0\nticks=1\nafter=0,1\n",
        0,
        0,
    ),
];

/// Texts of jobs that are read.
pub const JOBS: [Case; 4] = [
    (
        b"job=1\nperiod=1\ndeadline=1\nnodes=1\nkind=subtask\ntag=0\nticks=1\nafter=-\n",
        0,
        0,
    ),
    (
        b"job=65535\nperiod=14400\ndeadline=14400\nnodes=1\nkind=subtask\ntag=7\nticks=14400\nafter=-\n",
        0,
        0,
    ),
    // its work passes its deadline: that is no question of reading
    (
        b"job=7\nperiod=100\ndeadline=1\nnodes=2\nkind=subtask\ntag=0\nticks=14400\nafter=-\nkind=subtask\ntag=0\nticks=14400\nafter=0\n",
        0,
        0,
    ),
    // the worked graph
    (
        b"job=7\nperiod=1200\ndeadline=1000\nnodes=5\nkind=subtask\ntag=0\nticks=200\nafter=-\nkind=alternative\nafter=0\nkind=subtask\ntag=1\nticks=300\nafter=1\nkind=subtask\ntag=0\nticks=600\nafter=1\nkind=subtask\ntag=0\nticks=100\nafter=2,3\n",
        0,
        0,
    ),
];
