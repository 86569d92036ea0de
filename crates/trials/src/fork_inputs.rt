//! Inputs with forks at fault, or too many of them: questions 5 and 6.
use crate::inputs::Input;

pub const FORK_INPUTS: [Input; 28] = [
    (
        "an alternative without edges at node 0",
        b"engines=1|tag=0|marks=1|\
          |job=7|period=100|deadline=100|nodes=1|kind=alternative|after=-|",
        "answer=5,0|",
    ),
    (
        "a conditional at node 0 with two edges out",
        b"engines=1|tag=0|marks=1|\
          |job=7|period=100|deadline=100|nodes=3|\
          kind=conditional|after=-|kind=subtask|tag=0|ticks=1|after=0|\
          kind=subtask|tag=0|ticks=1|after=0|",
        "answer=5,0|",
    ),
    (
        "an alternative without an edge in",
        b"engines=1|tag=0|marks=1|\
          |job=7|period=100|deadline=100|nodes=4|\
          kind=subtask|tag=0|ticks=1|after=-|kind=alternative|after=-|\
          kind=subtask|tag=0|ticks=1|after=1|kind=subtask|tag=0|ticks=1|after=1|",
        "answer=5,1|",
    ),
    (
        "a conditional without an edge in",
        b"engines=1|tag=0|marks=1|\
          |job=7|period=100|deadline=100|nodes=5|\
          kind=subtask|tag=0|ticks=1|after=-|kind=subtask|tag=0|ticks=1|after=0|\
          kind=conditional|after=-|kind=subtask|tag=0|ticks=1|after=2|\
          kind=subtask|tag=0|ticks=1|after=2|",
        "answer=5,2|",
    ),
    (
        "an alternative without an edge out",
        b"engines=1|tag=0|marks=1|\
          |job=7|period=100|deadline=100|nodes=2|\
          kind=subtask|tag=0|ticks=1|after=-|kind=alternative|after=0|",
        "answer=5,1|",
    ),
    (
        "a conditional without an edge out",
        b"engines=1|tag=0|marks=1|\
          |job=7|period=100|deadline=100|nodes=3|\
          kind=subtask|tag=0|ticks=1|after=-|kind=subtask|tag=0|ticks=1|after=-|\
          kind=conditional|after=0,1|",
        "answer=5,2|",
    ),
    (
        "an alternative with one edge out",
        b"engines=1|tag=0|marks=1|\
          |job=7|period=100|deadline=100|nodes=3|\
          kind=subtask|tag=0|ticks=1|after=-|kind=alternative|after=0|\
          kind=subtask|tag=0|ticks=1|after=1|",
        "answer=5,1|",
    ),
    (
        "a conditional with one edge out, to a fork",
        b"engines=1|tag=0|marks=1|\
          |job=7|period=100|deadline=100|nodes=5|\
          kind=subtask|tag=0|ticks=1|after=-|kind=conditional|after=0|\
          kind=alternative|after=1|kind=subtask|tag=0|ticks=1|after=2|\
          kind=subtask|tag=0|ticks=1|after=2|",
        "answer=5,1|",
    ),
    (
        "an alternative with four edges out",
        b"engines=1|tag=0|marks=1|\
          |job=7|period=100|deadline=100|nodes=6|\
          kind=subtask|tag=0|ticks=1|after=-|kind=alternative|after=0|\
          kind=subtask|tag=0|ticks=1|after=1|kind=subtask|tag=0|ticks=1|after=1|\
          kind=subtask|tag=0|ticks=1|after=1|kind=subtask|tag=0|ticks=1|after=1|",
        "answer=5,1|",
    ),
    (
        "a conditional with four edges out, one of them to a fork",
        b"engines=1|tag=0|marks=1|\
          |job=7|period=100|deadline=100|nodes=7|\
          kind=subtask|tag=0|ticks=1|after=-|kind=conditional|after=0|\
          kind=subtask|tag=0|ticks=1|after=1|kind=subtask|tag=0|ticks=1|after=1|\
          kind=conditional|after=1|kind=subtask|tag=0|ticks=1|after=1,4|\
          kind=subtask|tag=0|ticks=1|after=4|",
        "answer=5,1|",
    ),
    (
        "two forks at fault",
        b"engines=1|tag=0|marks=1|\
          |job=7|period=100|deadline=100|nodes=5|\
          kind=subtask|tag=0|ticks=1|after=-|kind=subtask|tag=0|ticks=1|after=0|\
          kind=conditional|after=1|kind=alternative|after=1|\
          kind=subtask|tag=0|ticks=1|after=3|",
        "answer=5,2|",
    ),
    (
        "the second of two forks is at fault",
        b"engines=1|tag=0|marks=1|\
          |job=7|period=100|deadline=100|nodes=6|\
          kind=subtask|tag=0|ticks=1|after=-|kind=conditional|after=0|\
          kind=subtask|tag=0|ticks=1|after=1|kind=subtask|tag=0|ticks=1|after=1|\
          kind=alternative|after=2|kind=subtask|tag=0|ticks=1|after=4|",
        "answer=5,4|",
    ),
    (
        "the last of 24 nodes is a fork",
        b"engines=1|tag=0|marks=1|\
          |job=7|period=100|deadline=100|nodes=24|\
          kind=subtask|tag=0|ticks=1|after=-|kind=subtask|tag=0|ticks=1|after=-|\
          kind=subtask|tag=0|ticks=1|after=-|kind=subtask|tag=0|ticks=1|after=-|\
          kind=subtask|tag=0|ticks=1|after=-|kind=subtask|tag=0|ticks=1|after=-|\
          kind=subtask|tag=0|ticks=1|after=-|kind=subtask|tag=0|ticks=1|after=-|\
          kind=subtask|tag=0|ticks=1|after=-|kind=subtask|tag=0|ticks=1|after=-|\
          kind=subtask|tag=0|ticks=1|after=-|kind=subtask|tag=0|ticks=1|after=-|\
          kind=subtask|tag=0|ticks=1|after=-|kind=subtask|tag=0|ticks=1|after=-|\
          kind=subtask|tag=0|ticks=1|after=-|kind=subtask|tag=0|ticks=1|after=-|\
          kind=subtask|tag=0|ticks=1|after=-|kind=subtask|tag=0|ticks=1|after=-|\
          kind=subtask|tag=0|ticks=1|after=-|kind=subtask|tag=0|ticks=1|after=-|\
          kind=subtask|tag=0|ticks=1|after=-|kind=subtask|tag=0|ticks=1|after=-|\
          kind=subtask|tag=0|ticks=1|after=-|kind=alternative|after=22|",
        "answer=5,23|",
    ),
    (
        "node 22 is a fork with one edge out",
        b"engines=1|tag=0|marks=1|\
          |job=7|period=100|deadline=100|nodes=24|\
          kind=subtask|tag=0|ticks=1|after=-|kind=subtask|tag=0|ticks=1|after=-|\
          kind=subtask|tag=0|ticks=1|after=-|kind=subtask|tag=0|ticks=1|after=-|\
          kind=subtask|tag=0|ticks=1|after=-|kind=subtask|tag=0|ticks=1|after=-|\
          kind=subtask|tag=0|ticks=1|after=-|kind=subtask|tag=0|ticks=1|after=-|\
          kind=subtask|tag=0|ticks=1|after=-|kind=subtask|tag=0|ticks=1|after=-|\
          kind=subtask|tag=0|ticks=1|after=-|kind=subtask|tag=0|ticks=1|after=-|\
          kind=subtask|tag=0|ticks=1|after=-|kind=subtask|tag=0|ticks=1|after=-|\
          kind=subtask|tag=0|ticks=1|after=-|kind=subtask|tag=0|ticks=1|after=-|\
          kind=subtask|tag=0|ticks=1|after=-|kind=subtask|tag=0|ticks=1|after=-|\
          kind=subtask|tag=0|ticks=1|after=-|kind=subtask|tag=0|ticks=1|after=-|\
          kind=subtask|tag=0|ticks=1|after=-|kind=subtask|tag=0|ticks=1|after=-|\
          kind=conditional|after=0,1,2,21|kind=subtask|tag=0|ticks=1|after=22|",
        "answer=5,22|",
    ),
    (
        "node 21 is a fork with two edges out",
        b"engines=1|tag=0|marks=1|\
          |job=7|period=100|deadline=100|nodes=24|\
          kind=subtask|tag=0|ticks=1|after=-|kind=subtask|tag=0|ticks=1|after=-|\
          kind=subtask|tag=0|ticks=1|after=-|kind=subtask|tag=0|ticks=1|after=-|\
          kind=subtask|tag=0|ticks=1|after=-|kind=subtask|tag=0|ticks=1|after=-|\
          kind=subtask|tag=0|ticks=1|after=-|kind=subtask|tag=0|ticks=1|after=-|\
          kind=subtask|tag=0|ticks=1|after=-|kind=subtask|tag=0|ticks=1|after=-|\
          kind=subtask|tag=0|ticks=1|after=-|kind=subtask|tag=0|ticks=1|after=-|\
          kind=subtask|tag=0|ticks=1|after=-|kind=subtask|tag=0|ticks=1|after=-|\
          kind=subtask|tag=0|ticks=1|after=-|kind=subtask|tag=0|ticks=1|after=-|\
          kind=subtask|tag=0|ticks=1|after=-|kind=subtask|tag=0|ticks=1|after=-|\
          kind=subtask|tag=0|ticks=1|after=-|kind=subtask|tag=0|ticks=1|after=-|\
          kind=subtask|tag=0|ticks=1|after=-|kind=conditional|after=0,1,2,20|\
          kind=subtask|tag=0|ticks=1|after=21|kind=subtask|tag=0|ticks=1|after=21|",
        "answer=0|job=7|choice=0|node=0,0,0,50|node=1,0,0,50|node=2,0,0,50|node=3,0,0,100|\
         node=4,0,0,100|node=5,0,0,100|node=6,0,0,100|node=7,0,0,100|node=8,0,0,100|\
         node=9,0,0,100|node=10,0,0,100|node=11,0,0,100|node=12,0,0,100|node=13,0,0,100|\
         node=14,0,0,100|node=15,0,0,100|node=16,0,0,100|node=17,0,0,100|node=18,0,0,100|\
         node=19,0,0,100|node=20,0,0,50|node=22,0,50,100|node=23,0,50,100|",
    ),
    (
        "five alternatives in a row",
        b"engines=1|tag=0|marks=1|\
          |job=7|period=100|deadline=100|nodes=8|\
          kind=subtask|tag=0|ticks=1|after=-|kind=alternative|after=0|\
          kind=alternative|after=1|kind=alternative|after=2|kind=alternative|after=3|\
          kind=alternative|after=4|kind=subtask|tag=0|ticks=1|after=1,2,3,4,5|\
          kind=subtask|tag=0|ticks=1|after=5|",
        "answer=6,0|",
    ),
    (
        "five conditionals side by side",
        b"engines=1|tag=0|marks=1|\
          |job=7|period=100|deadline=100|nodes=8|\
          kind=subtask|tag=0|ticks=1|after=-|kind=conditional|after=0|\
          kind=conditional|after=0|kind=conditional|after=0|kind=conditional|after=0|\
          kind=conditional|after=0|kind=subtask|tag=0|ticks=1|after=1,2,3,4,5|\
          kind=subtask|tag=0|ticks=1|after=1,2,3,4,5|",
        "answer=6,0|",
    ),
    (
        "five alternatives and five conditionals",
        b"engines=1|tag=0|marks=1|\
          |job=7|period=100|deadline=100|nodes=13|\
          kind=subtask|tag=0|ticks=1|after=-|kind=alternative|after=0|\
          kind=conditional|after=0|kind=alternative|after=0|kind=conditional|after=0|\
          kind=alternative|after=0|kind=conditional|after=0|kind=alternative|after=0|\
          kind=conditional|after=0|kind=alternative|after=0|kind=conditional|after=0|\
          kind=subtask|tag=0|ticks=1|after=1,2,3,4,5,6,7,8,9,10|\
          kind=subtask|tag=0|ticks=1|after=1,2,3,4,5,6,7,8,9,10|",
        "answer=6,0|",
    ),
    (
        "five alternatives, of which the first has no edge out",
        b"engines=1|tag=0|marks=1|\
          |job=7|period=100|deadline=100|nodes=8|\
          kind=subtask|tag=0|ticks=1|after=-|kind=alternative|after=0|\
          kind=alternative|after=0|kind=alternative|after=0|kind=alternative|after=0|\
          kind=alternative|after=0|kind=subtask|tag=0|ticks=1|after=2,3,4,5|\
          kind=subtask|tag=0|ticks=1|after=2,3,4,5|",
        "answer=5,1|",
    ),
    (
        "five conditionals, of which the last has four edges out",
        b"engines=1|tag=0|marks=1|\
          |job=7|period=100|deadline=100|nodes=10|\
          kind=subtask|tag=0|ticks=1|after=-|kind=conditional|after=0|\
          kind=conditional|after=0|kind=conditional|after=0|kind=conditional|after=0|\
          kind=conditional|after=0|kind=subtask|tag=0|ticks=1|after=1,2,3,4,5|\
          kind=subtask|tag=0|ticks=1|after=1,2,3,4,5|kind=subtask|tag=0|ticks=1|after=5|\
          kind=subtask|tag=0|ticks=1|after=5|",
        "answer=5,5|",
    ),
    (
        "four alternatives and five conditionals",
        b"engines=1|tag=0|marks=1|\
          |job=7|period=100|deadline=100|nodes=12|\
          kind=subtask|tag=0|ticks=1|after=-|kind=alternative|after=0|\
          kind=alternative|after=0|kind=alternative|after=0|kind=alternative|after=0|\
          kind=conditional|after=0|kind=conditional|after=0|kind=conditional|after=0|\
          kind=conditional|after=0|kind=conditional|after=0|\
          kind=subtask|tag=0|ticks=1|after=1,2,3,4,5,6,7,8,9|\
          kind=subtask|tag=0|ticks=1|after=1,2,3,4,5,6,7,8,9|",
        "answer=6,0|",
    ),
    (
        "four alternatives and four conditionals",
        b"engines=1|tag=0|marks=1|\
          |job=7|period=100|deadline=100|nodes=11|\
          kind=subtask|tag=0|ticks=1|after=-|kind=alternative|after=0|\
          kind=conditional|after=0|kind=alternative|after=0|kind=conditional|after=0|\
          kind=alternative|after=0|kind=conditional|after=0|kind=alternative|after=0|\
          kind=conditional|after=0|kind=subtask|tag=0|ticks=1|after=1,2,3,4,5,6,7,8|\
          kind=subtask|tag=0|ticks=1|after=1,2,3,4,5,6,7,8|",
        "answer=0|job=7|choice=0|node=0,0,0,50|node=9,0,50,100|node=10,0,50,100|",
    ),
    (
        "four of each in a row",
        b"engines=1|tag=0|marks=1|\
          |job=7|period=100|deadline=100|nodes=11|\
          kind=subtask|tag=0|ticks=1|after=-|kind=alternative|after=0|\
          kind=conditional|after=1|kind=alternative|after=2|kind=conditional|after=3|\
          kind=alternative|after=4|kind=conditional|after=5|kind=alternative|after=6|\
          kind=conditional|after=7|kind=subtask|tag=0|ticks=1|after=1,2,3,4,5,6,7,8|\
          kind=subtask|tag=0|ticks=1|after=8|",
        "answer=0|job=7|choice=0|node=0,0,0,50|node=9,0,50,100|node=10,0,50,100|",
    ),
    (
        "a fork at fault comes before a number that is taken",
        b"engines=1|tag=0|marks=1|\
          |job=7|period=100|deadline=100|nodes=1|kind=subtask|tag=0|ticks=1|after=-|\
          |job=7|period=100|deadline=100|nodes=2|\
          kind=subtask|tag=0|ticks=1|after=-|kind=alternative|after=0|\
          |job=7|period=100|deadline=100|nodes=1|kind=subtask|tag=0|ticks=1|after=-|",
        "answer=0|job=7|choice=0|node=0,0,0,100|answer=5,1|answer=7,0|",
    ),
    (
        "too many forks come before a number that is taken",
        b"engines=1|tag=0|marks=1|\
          |job=7|period=100|deadline=100|nodes=1|kind=subtask|tag=0|ticks=1|after=-|\
          |job=7|period=100|deadline=100|nodes=8|\
          kind=subtask|tag=0|ticks=1|after=-|kind=alternative|after=0|\
          kind=alternative|after=0|kind=alternative|after=0|kind=alternative|after=0|\
          kind=alternative|after=0|kind=subtask|tag=0|ticks=1|after=1,2,3,4,5|\
          kind=subtask|tag=0|ticks=1|after=1,2,3,4,5|\
          |job=7|period=100|deadline=100|nodes=1|kind=subtask|tag=0|ticks=1|after=-|",
        "answer=0|job=7|choice=0|node=0,0,0,100|answer=6,0|answer=7,0|",
    ),
    (
        "bytes that follow come before a fork at fault",
        b"engines=1|tag=0|marks=1|\
          |job=7|period=100|deadline=100|nodes=2|\
          kind=subtask|tag=0|ticks=1|after=-|kind=alternative|after=0|x",
        "answer=2,11|",
    ),
    (
        "a fork that no choice reaches is asked too",
        b"engines=1|tag=0|marks=1|\
          |job=7|period=100|deadline=100|nodes=6|\
          kind=subtask|tag=0|ticks=1|after=-|kind=alternative|after=0|\
          kind=subtask|tag=0|ticks=1|after=1|kind=subtask|tag=0|ticks=1|after=1|\
          kind=conditional|after=2|kind=subtask|tag=0|ticks=1|after=4|",
        "answer=5,4|",
    ),
    (
        "work beyond the deadline comes after a fork at fault",
        b"engines=1|tag=0|marks=1|\
          |job=7|period=100|deadline=1|nodes=3|\
          kind=subtask|tag=0|ticks=100|after=-|kind=conditional|after=0|\
          kind=subtask|tag=0|ticks=1|after=1|",
        "answer=5,1|",
    ),
];
