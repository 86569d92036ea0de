//! Inputs of the seating program, and all that it prints of them.

pub const SEATS: [(&[u8], &str); 35] = [
    // one sub-task that just fits
    (
        b"engines=2\ntag=0\nmarks=1\ntag=1\nmarks=1\n\njob=1\nperiod=100\ndeadline=100\nnodes=1\nkind=subtask\ntag=0\nticks=100\nafter=-\n",
        "answer=0\njob=1\nchoice=0\nnode=0,0,0,100\n",
    ),
    // one tick more than the deadline
    (
        b"engines=2\ntag=0\nmarks=1\ntag=1\nmarks=1\n\njob=1\nperiod=100\ndeadline=99\nnodes=1\nkind=subtask\ntag=0\nticks=100\nafter=-\n",
        "answer=9,0\n",
    ),
    // two in a row that do not fit
    (
        b"engines=2\ntag=0\nmarks=1\ntag=1\nmarks=1\n\njob=2\nperiod=100\ndeadline=99\nnodes=2\nkind=subtask\ntag=0\nticks=50\nafter=-\nkind=subtask\ntag=0\nticks=50\nafter=0\n",
        "answer=9,0\n",
    ),
    // two without edges fit, each from 0
    (
        b"engines=2\ntag=0\nmarks=1\ntag=1\nmarks=1\n\njob=2\nperiod=100\ndeadline=99\nnodes=2\nkind=subtask\ntag=0\nticks=50\nafter=-\nkind=subtask\ntag=0\nticks=50\nafter=-\n",
        "answer=10,0\n",
    ),
    // a conditional whose longer branch does not fit
    (
        b"engines=2\ntag=0\nmarks=1\ntag=1\nmarks=1\n\njob=3\nperiod=50\ndeadline=49\nnodes=4\nkind=subtask\ntag=0\nticks=10\nafter=-\nkind=conditional\nafter=0\nkind=subtask\ntag=0\nticks=30\nafter=1\nkind=subtask\ntag=0\nticks=40\nafter=1\n",
        "answer=9,0\n",
    ),
    // a conditional whose longer branch fits
    (
        b"engines=2\ntag=0\nmarks=1\ntag=1\nmarks=1\n\njob=3\nperiod=50\ndeadline=50\nnodes=4\nkind=subtask\ntag=0\nticks=10\nafter=-\nkind=conditional\nafter=0\nkind=subtask\ntag=0\nticks=30\nafter=1\nkind=subtask\ntag=0\nticks=40\nafter=1\n",
        "answer=0\njob=3\nchoice=0\nnode=0,0,0,10\nnode=2,0,10,50\nnode=3,0,10,50\n",
    ),
    // the worked graph
    (
        b"engines=2\ntag=0\nmarks=1\ntag=1\nmarks=1\n\njob=7\nperiod=1200\ndeadline=1000\nnodes=5\nkind=subtask\ntag=0\nticks=200\nafter=-\nkind=alternative\nafter=0\nkind=subtask\ntag=1\nticks=300\nafter=1\nkind=subtask\ntag=0\nticks=600\nafter=1\nkind=subtask\ntag=0\nticks=100\nafter=2,3\n",
        "answer=0\njob=7\nchoice=0\nnode=0,0,0,333\nnode=2,1,333,833\nnode=4,0,833,1000\n",
    ),
    // the worked graph, of which only the second choice is possible
    (
        b"engines=2\ntag=0\nmarks=1\ntag=1\nmarks=1\n\njob=7\nperiod=1200\ndeadline=600\nnodes=5\nkind=subtask\ntag=0\nticks=200\nafter=-\nkind=alternative\nafter=0\nkind=subtask\ntag=1\nticks=600\nafter=1\nkind=subtask\ntag=0\nticks=300\nafter=1\nkind=subtask\ntag=0\nticks=100\nafter=2,3\n",
        "answer=0\njob=7\nchoice=1\nnode=0,0,0,200\nnode=3,0,200,500\nnode=4,0,500,600\n",
    ),
    // no choice of the worked graph is possible
    (
        b"engines=2\ntag=0\nmarks=1\ntag=1\nmarks=1\n\njob=7\nperiod=1200\ndeadline=599\nnodes=5\nkind=subtask\ntag=0\nticks=200\nafter=-\nkind=alternative\nafter=0\nkind=subtask\ntag=1\nticks=300\nafter=1\nkind=subtask\ntag=0\nticks=600\nafter=1\nkind=subtask\ntag=0\nticks=100\nafter=2,3\n",
        "answer=9,0\n",
    ),
    // two alternatives: the higher counts fastest
    (
        b"engines=2\ntag=0\nmarks=1\ntag=1\nmarks=1\n\njob=9\nperiod=1200\ndeadline=100\nnodes=8\nkind=subtask\ntag=0\nticks=1\nafter=-\nkind=alternative\nafter=0\nkind=subtask\ntag=0\nticks=90\nafter=1\nkind=subtask\ntag=0\nticks=10\nafter=1\nkind=alternative\nafter=2,3\nkind=subtask\ntag=0\nticks=80\nafter=4\nkind=subtask\ntag=0\nticks=90\nafter=4\nkind=subtask\ntag=0\nticks=9\nafter=4\n",
        "answer=0\njob=9\nchoice=2\nnode=0,0,0,1\nnode=2,0,1,91\nnode=7,0,91,100\n",
    ),
    // a node behind a dropped edge is outside
    (
        b"engines=2\ntag=0\nmarks=1\ntag=1\nmarks=1\n\njob=11\nperiod=240\ndeadline=240\nnodes=5\nkind=subtask\ntag=0\nticks=5\nafter=-\nkind=alternative\nafter=0\nkind=subtask\ntag=0\nticks=6\nafter=1\nkind=subtask\ntag=0\nticks=7\nafter=1\nkind=subtask\ntag=0\nticks=8\nafter=2\n",
        "answer=0\njob=11\nchoice=0\nnode=0,0,0,63\nnode=2,0,63,138\nnode=4,0,138,240\n",
    ),
    // the rule rounds down
    (
        b"engines=2\ntag=0\nmarks=1\ntag=1\nmarks=1\n\njob=12\nperiod=3\ndeadline=3\nnodes=2\nkind=subtask\ntag=0\nticks=1\nafter=-\nkind=subtask\ntag=0\nticks=1\nafter=0\n",
        "answer=0\njob=12\nchoice=0\nnode=0,0,0,1\nnode=1,0,1,3\n",
    ),
    // branches of one conditional are not added
    (
        b"engines=1\ntag=0\nmarks=1\n\njob=2\nperiod=2\ndeadline=2\nnodes=1\nkind=subtask\ntag=0\nticks=1\nafter=-\n\njob=1\nperiod=4\ndeadline=3\nnodes=4\nkind=subtask\ntag=0\nticks=1\nafter=-\nkind=conditional\nafter=0\nkind=subtask\ntag=0\nticks=1\nafter=1\nkind=subtask\ntag=0\nticks=1\nafter=1\n",
        "answer=0\njob=2\nchoice=0\nnode=0,0,0,2\nanswer=0\njob=1\nchoice=0\nnode=0,0,0,1\nnode=2,0,1,3\nnode=3,0,1,3\n",
    ),
    // choice numbers count alternatives that are outside the concrete graph
    (
        b"engines=2\ntag=0\nmarks=1\ntag=1\nmarks=1\n\njob=1\nperiod=100\ndeadline=100\nnodes=7\nkind=subtask\ntag=0\nticks=1\nafter=-\nkind=alternative\nafter=0\nkind=subtask\ntag=2\nticks=1\nafter=1\nkind=subtask\ntag=1\nticks=1\nafter=1\nkind=alternative\nafter=2\nkind=subtask\ntag=2\nticks=1\nafter=4\nkind=subtask\ntag=2\nticks=1\nafter=4\n",
        "answer=0\njob=1\nchoice=2\nnode=0,0,0,50\nnode=3,1,50,100\n",
    ),
    // node 0 is a fork
    (
        b"engines=1\ntag=0\nmarks=1\n\njob=1\nperiod=10\ndeadline=10\nnodes=1\nkind=conditional\nafter=-\n",
        "answer=5,0\n",
    ),
    // the place of a fork is its node
    (
        b"engines=1\ntag=0\nmarks=1\n\njob=1\nperiod=10\ndeadline=10\nnodes=3\nkind=subtask\ntag=0\nticks=1\nafter=-\nkind=subtask\ntag=0\nticks=1\nafter=-\nkind=conditional\nafter=0\n",
        "answer=5,2\n",
    ),
    // the last line is at fault, and text comes after it
    (
        b"engines=1\ntag=0\nmarks=1\n\njob=1\nperiod=10\ndeadline=10\nnodes=1\nkind=subtask\ntag=0\nticks=1\nafter=x\nmore\n",
        "answer=3,8\n",
    ),
    // several arrivals fall into one stretch
    (
        b"engines=1\ntag=0\nmarks=1\n\njob=2\nperiod=3\ndeadline=3\nnodes=1\nkind=subtask\ntag=0\nticks=1\nafter=-\n\njob=1\nperiod=4\ndeadline=4\nnodes=2\nkind=subtask\ntag=0\nticks=2\nafter=-\nkind=subtask\ntag=0\nticks=1\nafter=-\n",
        "answer=0\njob=2\nchoice=0\nnode=0,0,0,3\nanswer=10,0\n",
    ),
    // each arrival has a branch of its own
    (
        b"engines=1\ntag=0\nmarks=1\n\njob=2\nperiod=8\ndeadline=4\nnodes=1\nkind=subtask\ntag=0\nticks=2\nafter=-\n\njob=1\nperiod=8\ndeadline=8\nnodes=6\nkind=subtask\ntag=0\nticks=1\nafter=-\nkind=conditional\nafter=0\nkind=subtask\ntag=0\nticks=2\nafter=1\nkind=subtask\ntag=0\nticks=1\nafter=1\nkind=subtask\ntag=0\nticks=1\nafter=2\nkind=subtask\ntag=0\nticks=4\nafter=3\n",
        "answer=0\njob=2\nchoice=0\nnode=0,0,0,4\nanswer=10,0\n",
    ),
    // an empty text after the platform
    (b"engines=1\ntag=0\nmarks=1\n\n", "answer=1,0\n"),
    // a platform alone
    (b"engines=1\ntag=0\nmarks=1\n", ""),
    // a stretch begins between arrivals
    (
        b"engines=1\ntag=0\nmarks=1\n\njob=2\nperiod=6\ndeadline=1\nnodes=1\nkind=subtask\ntag=0\nticks=1\nafter=-\n\njob=1\nperiod=4\ndeadline=4\nnodes=3\nkind=subtask\ntag=0\nticks=1\nafter=-\nkind=subtask\ntag=0\nticks=1\nafter=0\nkind=subtask\ntag=0\nticks=1\nafter=0\n",
        "answer=0\njob=2\nchoice=0\nnode=0,0,0,1\nanswer=10,0\n",
    ),
    // a number that is taken, on a full board
    (
        b"engines=1\ntag=0\nmarks=1\n\njob=1\nperiod=14400\ndeadline=14400\nnodes=1\nkind=subtask\ntag=0\nticks=1\nafter=-\n\njob=2\nperiod=14400\ndeadline=14400\nnodes=1\nkind=subtask\ntag=0\nticks=1\nafter=-\n\njob=3\nperiod=14400\ndeadline=14400\nnodes=1\nkind=subtask\ntag=0\nticks=1\nafter=-\n\njob=4\nperiod=14400\ndeadline=14400\nnodes=1\nkind=subtask\ntag=0\nticks=1\nafter=-\n\njob=5\nperiod=14400\ndeadline=14400\nnodes=1\nkind=subtask\ntag=0\nticks=1\nafter=-\n\njob=6\nperiod=14400\ndeadline=14400\nnodes=1\nkind=subtask\ntag=0\nticks=1\nafter=-\n\njob=7\nperiod=14400\ndeadline=14400\nnodes=1\nkind=subtask\ntag=0\nticks=1\nafter=-\n\njob=8\nperiod=14400\ndeadline=14400\nnodes=1\nkind=subtask\ntag=0\nticks=1\nafter=-\n\njob=9\nperiod=14400\ndeadline=14400\nnodes=1\nkind=subtask\ntag=0\nticks=1\nafter=-\n\njob=10\nperiod=14400\ndeadline=14400\nnodes=1\nkind=subtask\ntag=0\nticks=1\nafter=-\n\njob=11\nperiod=14400\ndeadline=14400\nnodes=1\nkind=subtask\ntag=0\nticks=1\nafter=-\n\njob=12\nperiod=14400\ndeadline=14400\nnodes=1\nkind=subtask\ntag=0\nticks=1\nafter=-\n\njob=13\nperiod=14400\ndeadline=14400\nnodes=1\nkind=subtask\ntag=0\nticks=1\nafter=-\n\njob=14\nperiod=14400\ndeadline=14400\nnodes=1\nkind=subtask\ntag=0\nticks=1\nafter=-\n\njob=15\nperiod=14400\ndeadline=14400\nnodes=1\nkind=subtask\ntag=0\nticks=1\nafter=-\n\njob=16\nperiod=14400\ndeadline=14400\nnodes=1\nkind=subtask\ntag=0\nticks=1\nafter=-\n\njob=3\nperiod=14400\ndeadline=14400\nnodes=1\nkind=subtask\ntag=0\nticks=1\nafter=-\n\njob=17\nperiod=14400\ndeadline=14400\nnodes=1\nkind=subtask\ntag=0\nticks=1\nafter=-\n",
        "answer=0\njob=1\nchoice=0\nnode=0,0,0,14400\nanswer=0\njob=2\nchoice=0\nnode=0,0,0,14400\nanswer=0\njob=3\nchoice=0\nnode=0,0,0,14400\nanswer=0\njob=4\nchoice=0\nnode=0,0,0,14400\nanswer=0\njob=5\nchoice=0\nnode=0,0,0,14400\nanswer=0\njob=6\nchoice=0\nnode=0,0,0,14400\nanswer=0\njob=7\nchoice=0\nnode=0,0,0,14400\nanswer=0\njob=8\nchoice=0\nnode=0,0,0,14400\nanswer=0\njob=9\nchoice=0\nnode=0,0,0,14400\nanswer=0\njob=10\nchoice=0\nnode=0,0,0,14400\nanswer=0\njob=11\nchoice=0\nnode=0,0,0,14400\nanswer=0\njob=12\nchoice=0\nnode=0,0,0,14400\nanswer=0\njob=13\nchoice=0\nnode=0,0,0,14400\nanswer=0\njob=14\nchoice=0\nnode=0,0,0,14400\nanswer=0\njob=15\nchoice=0\nnode=0,0,0,14400\nanswer=0\njob=16\nchoice=0\nnode=0,0,0,14400\nanswer=7,0\nanswer=8,0\n",
    ),
    // a window that ends inside a stretch
    (
        b"engines=1\ntag=0\nmarks=1\n\njob=2\nperiod=2\ndeadline=1\nnodes=1\nkind=subtask\ntag=0\nticks=1\nafter=-\n\njob=1\nperiod=5\ndeadline=3\nnodes=2\nkind=subtask\ntag=0\nticks=1\nafter=-\nkind=subtask\ntag=0\nticks=1\nafter=-\n",
        "answer=0\njob=2\nchoice=0\nnode=0,0,0,1\nanswer=10,0\n",
    ),
    // a job that takes every tick, and then one of a single tick
    (
        b"engines=1\ntag=0\nmarks=1\n\njob=1\nperiod=100\ndeadline=100\nnodes=1\nkind=subtask\ntag=0\nticks=100\nafter=-\n\njob=2\nperiod=14400\ndeadline=14400\nnodes=1\nkind=subtask\ntag=0\nticks=1\nafter=-\n",
        "answer=0\njob=1\nchoice=0\nnode=0,0,0,100\nanswer=10,0\n",
    ),
    // every other tick is enough for one in two
    (
        b"engines=1\ntag=0\nmarks=10\n\njob=1\nperiod=2\ndeadline=2\nnodes=1\nkind=subtask\ntag=0\nticks=1\nafter=-\n",
        "answer=0\njob=1\nchoice=0\nnode=0,0,0,2\n",
    ),
    // every other tick is not enough for each
    (
        b"engines=1\ntag=0\nmarks=10\n\njob=1\nperiod=1\ndeadline=1\nnodes=1\nkind=subtask\ntag=0\nticks=1\nafter=-\n",
        "answer=10,0\n",
    ),
    // a part is not parted, even with two free engines
    (
        b"engines=2\ntag=0\nmarks=1\ntag=0\nmarks=1\n\njob=1\nperiod=100\ndeadline=99\nnodes=2\nkind=subtask\ntag=0\nticks=50\nafter=-\nkind=subtask\ntag=0\nticks=50\nafter=-\n",
        "answer=10,0\n",
    ),
    // the first deadline by which both are done
    (
        b"engines=1\ntag=0\nmarks=1\n\njob=1\nperiod=100\ndeadline=100\nnodes=2\nkind=subtask\ntag=0\nticks=50\nafter=-\nkind=subtask\ntag=0\nticks=50\nafter=-\n",
        "answer=0\njob=1\nchoice=0\nnode=0,0,0,100\nnode=1,0,0,100\n",
    ),
    // choice 0 finds no room on the second engine
    (
        b"engines=2\ntag=0\nmarks=1\ntag=1\nmarks=10\n\njob=7\nperiod=1200\ndeadline=1000\nnodes=5\nkind=subtask\ntag=0\nticks=200\nafter=-\nkind=alternative\nafter=0\nkind=subtask\ntag=1\nticks=300\nafter=1\nkind=subtask\ntag=0\nticks=600\nafter=1\nkind=subtask\ntag=0\nticks=100\nafter=2,3\n",
        "answer=0\njob=7\nchoice=1\nnode=0,0,0,222\nnode=3,0,222,888\nnode=4,0,888,1000\n",
    ),
    // no engine has the tag
    (
        b"engines=1\ntag=0\nmarks=1\n\njob=1\nperiod=100\ndeadline=100\nnodes=1\nkind=subtask\ntag=1\nticks=1\nafter=-\n",
        "answer=10,0\n",
    ),
    // the engine with most load is tried first
    (
        b"engines=2\ntag=0\nmarks=1\ntag=0\nmarks=1\n\njob=1\nperiod=100\ndeadline=100\nnodes=1\nkind=subtask\ntag=0\nticks=60\nafter=-\n\njob=2\nperiod=100\ndeadline=100\nnodes=1\nkind=subtask\ntag=0\nticks=60\nafter=-\n\njob=3\nperiod=100\ndeadline=100\nnodes=1\nkind=subtask\ntag=0\nticks=30\nafter=-\n\njob=4\nperiod=100\ndeadline=100\nnodes=1\nkind=subtask\ntag=0\nticks=30\nafter=-\n",
        "answer=0\njob=1\nchoice=0\nnode=0,0,0,100\nanswer=0\njob=2\nchoice=0\nnode=0,1,0,100\nanswer=0\njob=3\nchoice=0\nnode=0,0,0,100\nanswer=0\njob=4\nchoice=0\nnode=0,1,0,100\n",
    ),
    // a refused job leaves its number free
    (
        b"engines=1\ntag=0\nmarks=1\n\njob=1\nperiod=100\ndeadline=99\nnodes=1\nkind=subtask\ntag=0\nticks=100\nafter=-\n\njob=1\nperiod=100\ndeadline=100\nnodes=1\nkind=subtask\ntag=0\nticks=100\nafter=-\n\njob=1\nperiod=100\ndeadline=100\nnodes=1\nkind=subtask\ntag=0\nticks=1\nafter=-\n",
        "answer=9,0\nanswer=0\njob=1\nchoice=0\nnode=0,0,0,100\nanswer=7,0\n",
    ),
    // the seventeenth job
    (
        b"engines=1\ntag=0\nmarks=1\n\njob=1\nperiod=14400\ndeadline=14400\nnodes=1\nkind=subtask\ntag=0\nticks=1\nafter=-\n\njob=2\nperiod=14400\ndeadline=14400\nnodes=1\nkind=subtask\ntag=0\nticks=1\nafter=-\n\njob=3\nperiod=14400\ndeadline=14400\nnodes=1\nkind=subtask\ntag=0\nticks=1\nafter=-\n\njob=4\nperiod=14400\ndeadline=14400\nnodes=1\nkind=subtask\ntag=0\nticks=1\nafter=-\n\njob=5\nperiod=14400\ndeadline=14400\nnodes=1\nkind=subtask\ntag=0\nticks=1\nafter=-\n\njob=6\nperiod=14400\ndeadline=14400\nnodes=1\nkind=subtask\ntag=0\nticks=1\nafter=-\n\njob=7\nperiod=14400\ndeadline=14400\nnodes=1\nkind=subtask\ntag=0\nticks=1\nafter=-\n\njob=8\nperiod=14400\ndeadline=14400\nnodes=1\nkind=subtask\ntag=0\nticks=1\nafter=-\n\njob=9\nperiod=14400\ndeadline=14400\nnodes=1\nkind=subtask\ntag=0\nticks=1\nafter=-\n\njob=10\nperiod=14400\ndeadline=14400\nnodes=1\nkind=subtask\ntag=0\nticks=1\nafter=-\n\njob=11\nperiod=14400\ndeadline=14400\nnodes=1\nkind=subtask\ntag=0\nticks=1\nafter=-\n\njob=12\nperiod=14400\ndeadline=14400\nnodes=1\nkind=subtask\ntag=0\nticks=1\nafter=-\n\njob=13\nperiod=14400\ndeadline=14400\nnodes=1\nkind=subtask\ntag=0\nticks=1\nafter=-\n\njob=14\nperiod=14400\ndeadline=14400\nnodes=1\nkind=subtask\ntag=0\nticks=1\nafter=-\n\njob=15\nperiod=14400\ndeadline=14400\nnodes=1\nkind=subtask\ntag=0\nticks=1\nafter=-\n\njob=16\nperiod=14400\ndeadline=14400\nnodes=1\nkind=subtask\ntag=0\nticks=1\nafter=-\n\njob=17\nperiod=14400\ndeadline=14400\nnodes=1\nkind=subtask\ntag=0\nticks=1\nafter=-\n",
        "answer=0\njob=1\nchoice=0\nnode=0,0,0,14400\nanswer=0\njob=2\nchoice=0\nnode=0,0,0,14400\nanswer=0\njob=3\nchoice=0\nnode=0,0,0,14400\nanswer=0\njob=4\nchoice=0\nnode=0,0,0,14400\nanswer=0\njob=5\nchoice=0\nnode=0,0,0,14400\nanswer=0\njob=6\nchoice=0\nnode=0,0,0,14400\nanswer=0\njob=7\nchoice=0\nnode=0,0,0,14400\nanswer=0\njob=8\nchoice=0\nnode=0,0,0,14400\nanswer=0\njob=9\nchoice=0\nnode=0,0,0,14400\nanswer=0\njob=10\nchoice=0\nnode=0,0,0,14400\nanswer=0\njob=11\nchoice=0\nnode=0,0,0,14400\nanswer=0\njob=12\nchoice=0\nnode=0,0,0,14400\nanswer=0\njob=13\nchoice=0\nnode=0,0,0,14400\nanswer=0\njob=14\nchoice=0\nnode=0,0,0,14400\nanswer=0\njob=15\nchoice=0\nnode=0,0,0,14400\nanswer=0\njob=16\nchoice=0\nnode=0,0,0,14400\nanswer=8,0\n",
    ),
    // a platform at fault ends it
    (
        b"engines=0\n\njob=1\nperiod=100\ndeadline=100\nnodes=1\nkind=subtask\ntag=0\nticks=1\nafter=-\n",
        "answer=4,1\n",
    ),
];
