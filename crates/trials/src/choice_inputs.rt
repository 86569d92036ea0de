//! Inputs with alternatives: which choice is placed.
use crate::inputs::Input;

pub const CHOICE_INPUTS: [Input; 26] = [
    (
        "two, three and two edges out: choice 0",
        b"engines=1|tag=0|marks=1|\
          |job=1|period=100|deadline=100|nodes=11|\
          kind=subtask|tag=0|ticks=1|after=-|kind=alternative|after=0|\
          kind=subtask|tag=0|ticks=2|after=1|kind=subtask|tag=0|ticks=3|after=1|\
          kind=alternative|after=2,3|kind=subtask|tag=0|ticks=4|after=4|\
          kind=subtask|tag=0|ticks=5|after=4|kind=subtask|tag=0|ticks=6|after=4|\
          kind=alternative|after=5,6,7|kind=subtask|tag=0|ticks=7|after=8|\
          kind=subtask|tag=0|ticks=8|after=8|",
        "answer=0|job=1|choice=0|node=0,0,0,7|node=2,0,7,21|node=5,0,21,50|node=9,0,50,100|",
    ),
    (
        "two, three and two edges out: choice 1",
        b"engines=1|tag=0|marks=1|\
          |job=1|period=100|deadline=100|nodes=11|\
          kind=subtask|tag=0|ticks=1|after=-|kind=alternative|after=0|\
          kind=subtask|tag=0|ticks=2|after=1|kind=subtask|tag=2|ticks=3|after=1|\
          kind=alternative|after=2,3|kind=subtask|tag=0|ticks=4|after=4|\
          kind=subtask|tag=2|ticks=5|after=4|kind=subtask|tag=2|ticks=6|after=4|\
          kind=alternative|after=5,6,7|kind=subtask|tag=2|ticks=7|after=8|\
          kind=subtask|tag=0|ticks=8|after=8|",
        "answer=0|job=1|choice=1|node=0,0,0,6|node=2,0,6,20|node=5,0,20,46|node=10,0,46,100|",
    ),
    (
        "two, three and two edges out: choice 2",
        b"engines=1|tag=0|marks=1|\
          |job=1|period=100|deadline=100|nodes=11|\
          kind=subtask|tag=0|ticks=1|after=-|kind=alternative|after=0|\
          kind=subtask|tag=0|ticks=2|after=1|kind=subtask|tag=2|ticks=3|after=1|\
          kind=alternative|after=2,3|kind=subtask|tag=2|ticks=4|after=4|\
          kind=subtask|tag=0|ticks=5|after=4|kind=subtask|tag=2|ticks=6|after=4|\
          kind=alternative|after=5,6,7|kind=subtask|tag=0|ticks=7|after=8|\
          kind=subtask|tag=2|ticks=8|after=8|",
        "answer=0|job=1|choice=2|node=0,0,0,6|node=2,0,6,20|node=6,0,20,53|node=9,0,53,100|",
    ),
    (
        "two, three and two edges out: choice 6",
        b"engines=1|tag=0|marks=1|\
          |job=1|period=100|deadline=100|nodes=11|\
          kind=subtask|tag=0|ticks=1|after=-|kind=alternative|after=0|\
          kind=subtask|tag=2|ticks=2|after=1|kind=subtask|tag=0|ticks=3|after=1|\
          kind=alternative|after=2,3|kind=subtask|tag=0|ticks=4|after=4|\
          kind=subtask|tag=2|ticks=5|after=4|kind=subtask|tag=2|ticks=6|after=4|\
          kind=alternative|after=5,6,7|kind=subtask|tag=0|ticks=7|after=8|\
          kind=subtask|tag=2|ticks=8|after=8|",
        "answer=0|job=1|choice=6|node=0,0,0,6|node=3,0,6,26|node=5,0,26,53|node=9,0,53,100|",
    ),
    (
        "two, three and two edges out: the lowest possible choice is 9",
        b"engines=1|tag=0|marks=1|\
          |job=1|period=100|deadline=20|nodes=11|\
          kind=subtask|tag=0|ticks=1|after=-|kind=alternative|after=0|\
          kind=subtask|tag=0|ticks=20|after=1|kind=subtask|tag=0|ticks=3|after=1|\
          kind=alternative|after=2,3|kind=subtask|tag=0|ticks=18|after=4|\
          kind=subtask|tag=0|ticks=5|after=4|kind=subtask|tag=0|ticks=6|after=4|\
          kind=alternative|after=5,6,7|kind=subtask|tag=0|ticks=12|after=8|\
          kind=subtask|tag=0|ticks=8|after=8|",
        "answer=0|job=1|choice=9|node=0,0,0,1|node=3,0,1,4|node=6,0,4,10|node=10,0,10,20|",
    ),
    (
        "two, three and two edges out: choice 11, the last",
        b"engines=1|tag=0|marks=1|\
          |job=1|period=100|deadline=100|nodes=11|\
          kind=subtask|tag=0|ticks=1|after=-|kind=alternative|after=0|\
          kind=subtask|tag=2|ticks=2|after=1|kind=subtask|tag=0|ticks=3|after=1|\
          kind=alternative|after=2,3|kind=subtask|tag=2|ticks=4|after=4|\
          kind=subtask|tag=2|ticks=5|after=4|kind=subtask|tag=0|ticks=6|after=4|\
          kind=alternative|after=5,6,7|kind=subtask|tag=2|ticks=7|after=8|\
          kind=subtask|tag=0|ticks=8|after=8|",
        "answer=0|job=1|choice=11|node=0,0,0,5|node=3,0,5,22|node=7,0,22,55|node=10,0,55,100|",
    ),
    (
        "two, three and two edges out: none",
        b"engines=1|tag=0|marks=1|\
          |job=1|period=100|deadline=100|nodes=11|\
          kind=subtask|tag=0|ticks=1|after=-|kind=alternative|after=0|\
          kind=subtask|tag=2|ticks=2|after=1|kind=subtask|tag=0|ticks=3|after=1|\
          kind=alternative|after=2,3|kind=subtask|tag=2|ticks=4|after=4|\
          kind=subtask|tag=2|ticks=5|after=4|kind=subtask|tag=2|ticks=6|after=4|\
          kind=alternative|after=5,6,7|kind=subtask|tag=2|ticks=7|after=8|\
          kind=subtask|tag=0|ticks=8|after=8|",
        "answer=10,0|",
    ),
    (
        "81 choices: only the last can be placed",
        b"engines=1|tag=0|marks=1|\
          |job=1|period=240|deadline=240|nodes=14|\
          kind=subtask|tag=0|ticks=1|after=-|kind=alternative|after=0|\
          kind=subtask|tag=1|ticks=1|after=1|kind=subtask|tag=1|ticks=1|after=1|\
          kind=alternative|after=1|kind=subtask|tag=1|ticks=1|after=4|\
          kind=subtask|tag=1|ticks=1|after=4|kind=alternative|after=4|\
          kind=subtask|tag=1|ticks=1|after=7|kind=subtask|tag=1|ticks=1|after=7|\
          kind=alternative|after=7|kind=subtask|tag=1|ticks=1|after=10|\
          kind=subtask|tag=1|ticks=1|after=10|kind=subtask|tag=0|ticks=5|after=10|",
        "answer=0|job=1|choice=80|node=0,0,0,40|node=13,0,40,240|",
    ),
    (
        "four alternatives side by side: choice 26 of 81",
        b"engines=1|tag=0|marks=1|\
          |job=1|period=240|deadline=240|nodes=17|\
          kind=subtask|tag=0|ticks=1|after=-|kind=alternative|after=0|\
          kind=alternative|after=0|kind=alternative|after=0|kind=alternative|after=0|\
          kind=subtask|tag=0|ticks=1|after=1|kind=subtask|tag=1|ticks=1|after=1|\
          kind=subtask|tag=0|ticks=2|after=1|kind=subtask|tag=1|ticks=1|after=2|\
          kind=subtask|tag=1|ticks=1|after=2|kind=subtask|tag=0|ticks=2|after=2|\
          kind=subtask|tag=1|ticks=1|after=3|kind=subtask|tag=1|ticks=1|after=3|\
          kind=subtask|tag=0|ticks=2|after=3|kind=subtask|tag=1|ticks=1|after=4|\
          kind=subtask|tag=1|ticks=1|after=4|kind=subtask|tag=0|ticks=2|after=4|",
        "answer=0|job=1|choice=26|node=0,0,0,80|node=5,0,80,240|node=10,0,80,240|\
         node=13,0,80,240|node=16,0,80,240|",
    ),
    (
        "the deadline is the span of the second choice",
        b"engines=2|tag=0|marks=1|tag=1|marks=1|\
          |job=7|period=1200|deadline=900|nodes=5|\
          kind=subtask|tag=0|ticks=200|after=-|kind=alternative|after=0|\
          kind=subtask|tag=1|ticks=601|after=1|kind=subtask|tag=0|ticks=600|after=1|\
          kind=subtask|tag=0|ticks=100|after=2,3|",
        "answer=0|job=7|choice=1|node=0,0,0,200|node=3,0,200,800|node=4,0,800,900|",
    ),
    (
        "the deadline is a tick less than both spans",
        b"engines=2|tag=0|marks=1|tag=1|marks=1|\
          |job=7|period=1200|deadline=899|nodes=5|\
          kind=subtask|tag=0|ticks=200|after=-|kind=alternative|after=0|\
          kind=subtask|tag=1|ticks=601|after=1|kind=subtask|tag=0|ticks=600|after=1|\
          kind=subtask|tag=0|ticks=100|after=2,3|",
        "answer=9,0|",
    ),
    (
        "choice 0 is not possible and choice 1 has no place",
        b"engines=2|tag=0|marks=1|tag=1|marks=1|\
          |job=7|period=1200|deadline=600|nodes=5|\
          kind=subtask|tag=0|ticks=200|after=-|kind=alternative|after=0|\
          kind=subtask|tag=1|ticks=301|after=1|kind=subtask|tag=2|ticks=300|after=1|\
          kind=subtask|tag=0|ticks=100|after=2,3|",
        "answer=10,0|",
    ),
    (
        "an alternative of three edges, the third past the others",
        b"engines=1|tag=0|marks=1|\
          |job=3|period=60|deadline=60|nodes=5|\
          kind=subtask|tag=0|ticks=10|after=-|kind=alternative|after=0|\
          kind=subtask|tag=1|ticks=10|after=1|kind=subtask|tag=1|ticks=20|after=1|\
          kind=subtask|tag=0|ticks=30|after=1,2,3|",
        "answer=0|job=3|choice=2|node=0,0,0,15|node=4,0,15,60|",
    ),
    (
        "an edge from the alternative straight to the node where the sides meet",
        b"engines=1|tag=0|marks=1|\
          |job=3|period=60|deadline=40|nodes=4|\
          kind=subtask|tag=0|ticks=10|after=-|kind=alternative|after=0|\
          kind=subtask|tag=0|ticks=30|after=1|kind=subtask|tag=0|ticks=10|after=1,2|",
        "answer=0|job=3|choice=1|node=0,0,0,20|node=3,0,20,40|",
    ),
    (
        "an alternative right after an alternative",
        b"engines=2|tag=0|marks=1|tag=1|marks=1|\
          |job=5|period=120|deadline=100|nodes=7|\
          kind=subtask|tag=0|ticks=10|after=-|kind=alternative|after=0|\
          kind=alternative|after=1|kind=subtask|tag=0|ticks=85|after=1|\
          kind=subtask|tag=2|ticks=20|after=2|kind=subtask|tag=1|ticks=30|after=2|\
          kind=subtask|tag=0|ticks=15|after=3,4,5|",
        "answer=0|job=5|choice=1|node=0,0,0,18|node=5,1,18,72|node=6,0,72,100|",
    ),
    (
        "three alternatives right after one another",
        b"engines=1|tag=0|marks=1|\
          |job=5|period=120|deadline=120|nodes=9|\
          kind=subtask|tag=0|ticks=10|after=-|kind=alternative|after=0|\
          kind=alternative|after=1|kind=alternative|after=2|\
          kind=subtask|tag=1|ticks=7|after=1|kind=subtask|tag=1|ticks=8|after=2|\
          kind=subtask|tag=1|ticks=9|after=3|kind=subtask|tag=0|ticks=11|after=3|\
          kind=subtask|tag=0|ticks=12|after=4,5,6,7|",
        "answer=0|job=5|choice=1|node=0,0,0,36|node=7,0,36,76|node=8,0,76,120|",
    ),
    (
        "the alternative outside turns faster: its choices share a graph",
        b"engines=1|tag=0|marks=1|\
          |job=2|period=100|deadline=100|nodes=8|\
          kind=subtask|tag=0|ticks=10|after=-|kind=alternative|after=0|\
          kind=subtask|tag=2|ticks=10|after=1|kind=subtask|tag=0|ticks=20|after=1|\
          kind=alternative|after=2|kind=subtask|tag=0|ticks=5|after=4|\
          kind=subtask|tag=0|ticks=6|after=4|kind=subtask|tag=0|ticks=7|after=4|",
        "answer=0|job=2|choice=3|node=0,0,0,33|node=3,0,33,100|",
    ),
    (
        "the alternative outside turns slower: its choices share a graph",
        b"engines=1|tag=0|marks=1|\
          |job=2|period=100|deadline=100|nodes=6|\
          kind=subtask|tag=0|ticks=10|after=-|kind=alternative|after=0|\
          kind=alternative|after=1|kind=subtask|tag=2|ticks=5|after=2|\
          kind=subtask|tag=2|ticks=6|after=2|kind=subtask|tag=0|ticks=7|after=1|",
        "answer=0|job=2|choice=2|node=0,0,0,58|node=5,0,58,100|",
    ),
    (
        "choices that share a graph and have no place",
        b"engines=1|tag=0|marks=10|\
          |job=2|period=100|deadline=100|nodes=7|\
          kind=subtask|tag=0|ticks=60|after=-|kind=alternative|after=0|\
          kind=subtask|tag=2|ticks=10|after=1|kind=subtask|tag=0|ticks=20|after=1|\
          kind=alternative|after=2|kind=subtask|tag=0|ticks=5|after=4|\
          kind=subtask|tag=0|ticks=6|after=4|",
        "answer=10,0|",
    ),
    (
        "choices that share a graph that is not possible",
        b"engines=1|tag=0|marks=1|\
          |job=2|period=100|deadline=70|nodes=7|\
          kind=subtask|tag=0|ticks=60|after=-|kind=alternative|after=0|\
          kind=subtask|tag=0|ticks=11|after=1|kind=subtask|tag=0|ticks=12|after=1|\
          kind=alternative|after=2|kind=subtask|tag=0|ticks=1|after=4|\
          kind=subtask|tag=0|ticks=2|after=4|",
        "answer=9,0|",
    ),
    (
        "a whole side of an alternative falls away with its chain",
        b"engines=1|tag=0|marks=1|\
          |job=2|period=200|deadline=150|nodes=7|\
          kind=subtask|tag=0|ticks=10|after=-|kind=alternative|after=0|\
          kind=subtask|tag=0|ticks=100|after=1|kind=subtask|tag=0|ticks=20|after=1|\
          kind=subtask|tag=0|ticks=50|after=2|kind=subtask|tag=0|ticks=5|after=4|\
          kind=subtask|tag=0|ticks=30|after=3,5|",
        "answer=0|job=2|choice=1|node=0,0,0,25|node=3,0,25,75|node=6,0,75,150|",
    ),
    (
        "a node with one edge from a side that fell away",
        b"engines=1|tag=0|marks=1|\
          |job=2|period=200|deadline=100|nodes=6|\
          kind=subtask|tag=0|ticks=10|after=-|kind=subtask|tag=0|ticks=30|after=0|\
          kind=alternative|after=0|kind=subtask|tag=2|ticks=10|after=2|\
          kind=subtask|tag=0|ticks=20|after=2|kind=subtask|tag=0|ticks=15|after=1,3|",
        "answer=0|job=2|choice=1|node=0,0,0,18|node=1,0,18,72|node=4,0,18,100|\
         node=5,0,72,100|",
    ),
    (
        "an alternative with edges in from three sub-tasks",
        b"engines=2|tag=0|marks=1|tag=1|marks=1|\
          |job=2|period=200|deadline=100|nodes=7|\
          kind=subtask|tag=0|ticks=10|after=-|kind=subtask|tag=1|ticks=20|after=-|\
          kind=subtask|tag=0|ticks=5|after=-|kind=alternative|after=0,1,2|\
          kind=subtask|tag=0|ticks=90|after=3|kind=subtask|tag=1|ticks=45|after=3|\
          kind=subtask|tag=0|ticks=10|after=4,5|",
        "answer=0|job=2|choice=1|node=0,0,0,15|node=1,1,0,26|node=2,0,0,8|node=5,1,26,86|\
         node=6,0,86,100|",
    ),
    (
        "the parts of both choices are on different tags",
        b"engines=3|tag=0|marks=1|tag=1|marks=10|tag=2|marks=1|\
          |job=9|period=100|deadline=100|nodes=4|\
          kind=subtask|tag=0|ticks=5|after=-|kind=alternative|after=0|\
          kind=subtask|tag=1|ticks=50|after=1|kind=subtask|tag=2|ticks=60|after=1|",
        "answer=0|job=9|choice=1|node=0,0,0,7|node=3,2,7,100|",
    ),
    (
        "a refused choice leaves nothing on an engine",
        b"engines=3|tag=0|marks=1|tag=1|marks=10|tag=2|marks=1|\
          |job=9|period=100|deadline=100|nodes=4|\
          kind=subtask|tag=0|ticks=60|after=-|kind=alternative|after=0|\
          kind=subtask|tag=1|ticks=39|after=1|kind=subtask|tag=2|ticks=38|after=1|\
          |job=10|period=100|deadline=100|nodes=1|kind=subtask|tag=0|ticks=40|after=-|\
          |job=11|period=100|deadline=100|nodes=1|kind=subtask|tag=1|ticks=50|after=-|",
        "answer=0|job=9|choice=1|node=0,0,0,61|node=3,2,61,100|\
         answer=0|job=10|choice=0|node=0,0,0,100|answer=0|job=11|choice=0|node=0,1,0,100|",
    ),
    (
        "the later choice is for a full engine",
        b"engines=2|tag=0|marks=1|tag=1|marks=1|\
          |job=1|period=100|deadline=100|nodes=1|kind=subtask|tag=0|ticks=70|after=-|\
          |job=2|period=100|deadline=100|nodes=4|\
          kind=subtask|tag=1|ticks=5|after=-|kind=alternative|after=0|\
          kind=subtask|tag=0|ticks=31|after=1|kind=subtask|tag=1|ticks=40|after=1|\
          |job=3|period=100|deadline=100|nodes=4|\
          kind=subtask|tag=1|ticks=5|after=-|kind=alternative|after=0|\
          kind=subtask|tag=0|ticks=29|after=1|kind=subtask|tag=1|ticks=40|after=1|",
        "answer=0|job=1|choice=0|node=0,0,0,100|\
         answer=0|job=2|choice=1|node=0,1,0,11|node=3,1,11,100|\
         answer=0|job=3|choice=0|node=0,1,0,14|node=2,0,14,100|",
    ),
];
