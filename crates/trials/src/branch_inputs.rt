//! Inputs with conditionals, alone and with alternatives.
use crate::inputs::Input;

pub const BRANCH_INPUTS: [Input; 29] = [
    (
        "a conditional of three branches",
        b"engines=1|tag=0|marks=1|\
          |job=3|period=60|deadline=60|nodes=5|\
          kind=subtask|tag=0|ticks=10|after=-|kind=conditional|after=0|\
          kind=subtask|tag=0|ticks=20|after=1|kind=subtask|tag=0|ticks=30|after=1|\
          kind=subtask|tag=0|ticks=50|after=1|",
        "answer=0|job=3|choice=0|node=0,0,0,10|node=2,0,10,60|node=3,0,10,60|node=4,0,10,60|",
    ),
    (
        "a conditional of three branches, a tick more than the deadline",
        b"engines=1|tag=0|marks=1|\
          |job=3|period=60|deadline=59|nodes=5|\
          kind=subtask|tag=0|ticks=10|after=-|kind=conditional|after=0|\
          kind=subtask|tag=0|ticks=20|after=1|kind=subtask|tag=0|ticks=30|after=1|\
          kind=subtask|tag=0|ticks=50|after=1|",
        "answer=9,0|",
    ),
    (
        "branches of one conditional share what an arrival takes",
        b"engines=1|tag=0|marks=1|\
          |job=3|period=100|deadline=100|nodes=5|\
          kind=subtask|tag=0|ticks=20|after=-|kind=conditional|after=0|\
          kind=subtask|tag=0|ticks=30|after=1|kind=subtask|tag=0|ticks=40|after=1|\
          kind=subtask|tag=0|ticks=40|after=2,3|",
        "answer=0|job=3|choice=0|node=0,0,0,20|node=2,0,20,55|node=3,0,20,60|node=4,0,60,100|",
    ),
    (
        "the same work without the conditional",
        b"engines=1|tag=0|marks=1|\
          |job=3|period=100|deadline=100|nodes=4|\
          kind=subtask|tag=0|ticks=20|after=-|kind=subtask|tag=0|ticks=30|after=0|\
          kind=subtask|tag=0|ticks=40|after=0|kind=subtask|tag=0|ticks=40|after=1,2|",
        "answer=10,0|",
    ),
    (
        "the branches are on different engines",
        b"engines=2|tag=0|marks=1|tag=1|marks=1|\
          |job=3|period=50|deadline=50|nodes=4|\
          kind=subtask|tag=0|ticks=10|after=-|kind=conditional|after=0|\
          kind=subtask|tag=0|ticks=40|after=1|kind=subtask|tag=1|ticks=40|after=1|\
          |job=4|period=50|deadline=50|nodes=1|kind=subtask|tag=1|ticks=10|after=-|\
          |job=5|period=50|deadline=50|nodes=1|kind=subtask|tag=1|ticks=1|after=-|",
        "answer=0|job=3|choice=0|node=0,0,0,10|node=2,0,10,50|node=3,1,10,50|\
         answer=0|job=4|choice=0|node=0,1,0,50|answer=10,0|",
    ),
    (
        "a part whose tag is on one branch alone",
        b"engines=2|tag=0|marks=1|tag=1|marks=10|\
          |job=3|period=100|deadline=100|nodes=4|\
          kind=subtask|tag=0|ticks=10|after=-|kind=conditional|after=0|\
          kind=subtask|tag=1|ticks=45|after=1|kind=subtask|tag=0|ticks=90|after=1|",
        "answer=0|job=3|choice=0|node=0,0,0,10|node=2,1,10,100|node=3,0,10,100|",
    ),
    (
        "a part whose tag is on one branch alone, and does not fit",
        b"engines=2|tag=0|marks=1|tag=1|marks=10|\
          |job=3|period=100|deadline=100|nodes=4|\
          kind=subtask|tag=0|ticks=10|after=-|kind=conditional|after=0|\
          kind=subtask|tag=1|ticks=46|after=1|kind=subtask|tag=0|ticks=90|after=1|",
        "answer=10,0|",
    ),
    (
        "an edge from the conditional straight to the node where the sides meet",
        b"engines=1|tag=0|marks=1|\
          |job=3|period=60|deadline=60|nodes=4|\
          kind=subtask|tag=0|ticks=10|after=-|kind=conditional|after=0|\
          kind=subtask|tag=0|ticks=30|after=1|kind=subtask|tag=0|ticks=20|after=1,2|",
        "answer=0|job=3|choice=0|node=0,0,0,10|node=2,0,10,40|node=3,0,40,60|",
    ),
    (
        "a conditional right after a conditional",
        b"engines=1|tag=0|marks=1|\
          |job=3|period=100|deadline=100|nodes=6|\
          kind=subtask|tag=0|ticks=10|after=-|kind=conditional|after=0|\
          kind=conditional|after=1|kind=subtask|tag=0|ticks=20|after=1|\
          kind=subtask|tag=0|ticks=30|after=2|kind=subtask|tag=0|ticks=90|after=2|",
        "answer=0|job=3|choice=0|node=0,0,0,10|node=3,0,10,100|node=4,0,10,100|\
         node=5,0,10,100|",
    ),
    (
        "conditionals right after one another, with 81 branch numbers",
        b"engines=1|tag=0|marks=1|\
          |job=3|period=100|deadline=100|nodes=14|\
          kind=subtask|tag=0|ticks=10|after=-|kind=conditional|after=0|\
          kind=subtask|tag=0|ticks=1|after=1|kind=subtask|tag=0|ticks=2|after=1|\
          kind=conditional|after=1|kind=subtask|tag=0|ticks=3|after=4|\
          kind=subtask|tag=0|ticks=4|after=4|kind=conditional|after=4|\
          kind=subtask|tag=0|ticks=5|after=7|kind=subtask|tag=0|ticks=6|after=7|\
          kind=conditional|after=7|kind=subtask|tag=0|ticks=7|after=10|\
          kind=subtask|tag=0|ticks=8|after=10|kind=subtask|tag=0|ticks=90|after=10|",
        "answer=0|job=3|choice=0|node=0,0,0,10|node=2,0,10,100|node=3,0,10,100|\
         node=5,0,10,100|node=6,0,10,100|node=8,0,10,100|node=9,0,10,100|node=11,0,10,100|\
         node=12,0,10,100|node=13,0,10,100|",
    ),
    (
        "two conditionals side by side: both largest branches together",
        b"engines=1|tag=0|marks=1|\
          |job=3|period=100|deadline=100|nodes=7|\
          kind=subtask|tag=0|ticks=10|after=-|kind=conditional|after=0|\
          kind=conditional|after=0|kind=subtask|tag=0|ticks=20|after=1|\
          kind=subtask|tag=0|ticks=34|after=1|kind=subtask|tag=0|ticks=50|after=2|\
          kind=subtask|tag=0|ticks=30|after=2|",
        "answer=0|job=3|choice=0|node=0,0,0,16|node=3,0,16,100|node=4,0,16,100|\
         node=5,0,16,100|node=6,0,16,100|",
    ),
    (
        "two conditionals side by side: a tick too much",
        b"engines=1|tag=0|marks=1|\
          |job=3|period=100|deadline=100|nodes=7|\
          kind=subtask|tag=0|ticks=10|after=-|kind=conditional|after=0|\
          kind=conditional|after=0|kind=subtask|tag=0|ticks=20|after=1|\
          kind=subtask|tag=0|ticks=35|after=1|kind=subtask|tag=0|ticks=50|after=2|\
          kind=subtask|tag=0|ticks=30|after=2|",
        "answer=10,0|",
    ),
    (
        "an offset from a branch that is not reached",
        b"engines=1|tag=0|marks=1|\
          |job=1|period=100|deadline=100|nodes=5|\
          kind=subtask|tag=0|ticks=10|after=-|kind=conditional|after=0|\
          kind=subtask|tag=0|ticks=10|after=1|kind=subtask|tag=0|ticks=60|after=1|\
          kind=subtask|tag=0|ticks=30|after=2,3|",
        "answer=0|job=1|choice=0|node=0,0,0,10|node=2,0,10,40|node=3,0,10,70|node=4,0,70,100|",
    ),
    (
        "the offset from the other branch leaves just room",
        b"engines=2|tag=0|marks=1|tag=1|marks=1|\
          |job=1|period=100|deadline=80|nodes=5|\
          kind=subtask|tag=0|ticks=10|after=-|kind=conditional|after=0|\
          kind=subtask|tag=0|ticks=5|after=1|kind=subtask|tag=1|ticks=50|after=1|\
          kind=subtask|tag=0|ticks=20|after=2,3|\
          |job=2|period=100|deadline=30|nodes=1|kind=subtask|tag=0|ticks=10|after=-|",
        "answer=0|job=1|choice=0|node=0,0,0,10|node=2,0,10,34|node=3,1,10,60|node=4,0,60,80|\
         answer=0|job=2|choice=0|node=0,0,0,30|",
    ),
    (
        "the offset from the other branch leaves a tick too little",
        b"engines=2|tag=0|marks=1|tag=1|marks=1|\
          |job=1|period=100|deadline=80|nodes=5|\
          kind=subtask|tag=0|ticks=10|after=-|kind=conditional|after=0|\
          kind=subtask|tag=0|ticks=5|after=1|kind=subtask|tag=1|ticks=50|after=1|\
          kind=subtask|tag=0|ticks=20|after=2,3|\
          |job=2|period=100|deadline=30|nodes=1|kind=subtask|tag=0|ticks=11|after=-|",
        "answer=0|job=1|choice=0|node=0,0,0,10|node=2,0,10,34|node=3,1,10,60|node=4,0,60,80|\
         answer=10,0|",
    ),
    (
        "a node after a conditional's sides and a sub-task beside it",
        b"engines=1|tag=0|marks=1|\
          |job=1|period=240|deadline=200|nodes=6|\
          kind=subtask|tag=0|ticks=10|after=-|kind=subtask|tag=0|ticks=70|after=0|\
          kind=conditional|after=0|kind=subtask|tag=0|ticks=20|after=2|\
          kind=subtask|tag=0|ticks=30|after=2|kind=subtask|tag=0|ticks=40|after=1,3,4|",
        "answer=0|job=1|choice=0|node=0,0,0,16|node=1,0,16,133|node=3,0,16,85|\
         node=4,0,16,100|node=5,0,133,200|",
    ),
    (
        "a node that one branch alone leads to, over two edges",
        b"engines=1|tag=0|marks=1|\
          |job=1|period=240|deadline=200|nodes=6|\
          kind=subtask|tag=0|ticks=10|after=-|kind=conditional|after=0|\
          kind=subtask|tag=0|ticks=30|after=1|kind=subtask|tag=0|ticks=40|after=1|\
          kind=subtask|tag=0|ticks=60|after=2|kind=subtask|tag=0|ticks=50|after=3,4|",
        "answer=0|job=1|choice=0|node=0,0,0,13|node=2,0,13,53|node=3,0,13,100|\
         node=4,0,53,133|node=5,0,133,200|",
    ),
    (
        "an alternative on one branch",
        b"engines=2|tag=0|marks=1|tag=1|marks=1|\
          |job=1|period=200|deadline=100|nodes=7|\
          kind=subtask|tag=0|ticks=10|after=-|kind=conditional|after=0|\
          kind=subtask|tag=0|ticks=20|after=1|kind=alternative|after=1|\
          kind=subtask|tag=2|ticks=30|after=3|kind=subtask|tag=1|ticks=40|after=3|\
          kind=subtask|tag=0|ticks=30|after=2,4,5|",
        "answer=0|job=1|choice=1|node=0,0,0,12|node=2,0,12,50|node=5,1,12,62|node=6,0,62,100|",
    ),
    (
        "a conditional on one side of an alternative",
        b"engines=2|tag=0|marks=1|tag=1|marks=1|\
          |job=1|period=200|deadline=100|nodes=7|\
          kind=subtask|tag=0|ticks=10|after=-|kind=alternative|after=0|\
          kind=subtask|tag=2|ticks=20|after=1|kind=conditional|after=1|\
          kind=subtask|tag=0|ticks=30|after=3|kind=subtask|tag=1|ticks=40|after=3|\
          kind=subtask|tag=0|ticks=30|after=2,4,5|",
        "answer=0|job=1|choice=1|node=0,0,0,12|node=4,0,12,57|node=5,1,12,62|node=6,0,62,100|",
    ),
    (
        "a conditional outside the graph counts its branch numbers",
        b"engines=1|tag=0|marks=1|\
          |job=1|period=200|deadline=100|nodes=8|\
          kind=subtask|tag=0|ticks=10|after=-|kind=alternative|after=0|\
          kind=subtask|tag=2|ticks=20|after=1|kind=subtask|tag=0|ticks=40|after=1|\
          kind=conditional|after=2|kind=subtask|tag=0|ticks=80|after=4|\
          kind=subtask|tag=0|ticks=90|after=4|kind=subtask|tag=0|ticks=30|after=3|",
        "answer=0|job=1|choice=1|node=0,0,0,12|node=3,0,12,62|node=7,0,62,100|",
    ),
    (
        "an alternative right after a conditional",
        b"engines=2|tag=0|marks=1|tag=1|marks=1|\
          |job=1|period=200|deadline=100|nodes=6|\
          kind=subtask|tag=0|ticks=10|after=-|kind=conditional|after=0|\
          kind=alternative|after=1|kind=subtask|tag=0|ticks=60|after=1|\
          kind=subtask|tag=2|ticks=70|after=2|kind=subtask|tag=1|ticks=80|after=2|",
        "answer=0|job=1|choice=1|node=0,0,0,11|node=3,0,11,100|node=5,1,11,100|",
    ),
    (
        "a conditional right after an alternative",
        b"engines=2|tag=0|marks=1|tag=1|marks=1|\
          |job=1|period=200|deadline=100|nodes=6|\
          kind=subtask|tag=0|ticks=10|after=-|kind=alternative|after=0|\
          kind=conditional|after=1|kind=subtask|tag=2|ticks=60|after=1|\
          kind=subtask|tag=0|ticks=70|after=2|kind=subtask|tag=1|ticks=80|after=2|",
        "answer=0|job=1|choice=0|node=0,0,0,11|node=4,0,11,100|node=5,1,11,100|",
    ),
    (
        "a conditional and an alternative after the same sub-task",
        b"engines=2|tag=0|marks=1|tag=1|marks=1|\
          |job=1|period=200|deadline=100|nodes=6|\
          kind=subtask|tag=0|ticks=10|after=-|kind=conditional|after=0|\
          kind=alternative|after=0|kind=subtask|tag=0|ticks=20|after=1,2|\
          kind=subtask|tag=0|ticks=30|after=1|kind=subtask|tag=1|ticks=40|after=2|",
        "answer=0|job=1|choice=0|node=0,0,0,25|node=3,0,25,100|node=4,0,25,100|",
    ),
    (
        "an alternative edge and a conditional edge to one node",
        b"engines=2|tag=0|marks=1|tag=1|marks=1|\
          |job=1|period=200|deadline=120|nodes=6|\
          kind=subtask|tag=0|ticks=10|after=-|kind=conditional|after=0|\
          kind=alternative|after=0|kind=subtask|tag=0|ticks=20|after=1|\
          kind=subtask|tag=1|ticks=40|after=2|kind=subtask|tag=0|ticks=50|after=1,2|",
        "answer=0|job=1|choice=0|node=0,0,0,20|node=3,0,20,120|node=4,1,20,120|\
         node=5,0,20,120|",
    ),
    (
        "each arrival has a branch of its own: just room",
        b"engines=1|tag=0|marks=1|\
          |job=1|period=10|deadline=10|nodes=6|\
          kind=subtask|tag=0|ticks=2|after=-|kind=conditional|after=0|\
          kind=subtask|tag=0|ticks=1|after=1|kind=subtask|tag=0|ticks=1|after=1|\
          kind=subtask|tag=0|ticks=1|after=2|kind=subtask|tag=0|ticks=5|after=3|\
          |job=2|period=20|deadline=20|nodes=1|kind=subtask|tag=0|ticks=4|after=-|",
        "answer=0|job=1|choice=0|node=0,0,0,2|node=2,0,2,7|node=3,0,2,3|node=4,0,7,10|\
         node=5,0,3,10|\
         answer=0|job=2|choice=0|node=0,0,0,20|",
    ),
    (
        "each arrival has a branch of its own: a tick too much",
        b"engines=1|tag=0|marks=1|\
          |job=1|period=10|deadline=10|nodes=6|\
          kind=subtask|tag=0|ticks=2|after=-|kind=conditional|after=0|\
          kind=subtask|tag=0|ticks=1|after=1|kind=subtask|tag=0|ticks=1|after=1|\
          kind=subtask|tag=0|ticks=1|after=2|kind=subtask|tag=0|ticks=5|after=3|\
          |job=2|period=20|deadline=20|nodes=1|kind=subtask|tag=0|ticks=5|after=-|",
        "answer=0|job=1|choice=0|node=0,0,0,2|node=2,0,2,7|node=3,0,2,3|node=4,0,7,10|\
         node=5,0,3,10|\
         answer=10,0|",
    ),
    (
        "the load counts the larger branch",
        b"engines=3|tag=0|marks=1|tag=0|marks=1|tag=1|marks=1|\
          |job=1|period=100|deadline=100|nodes=4|\
          kind=subtask|tag=1|ticks=10|after=-|kind=conditional|after=0|\
          kind=subtask|tag=0|ticks=60|after=1|kind=subtask|tag=0|ticks=10|after=1|\
          |job=2|period=100|deadline=100|nodes=1|kind=subtask|tag=0|ticks=65|after=-|\
          |job=3|period=100|deadline=100|nodes=1|kind=subtask|tag=0|ticks=10|after=-|\
          |job=4|period=100|deadline=100|nodes=1|kind=subtask|tag=0|ticks=10|after=-|",
        "answer=0|job=1|choice=0|node=0,2,0,14|node=2,0,14,100|node=3,0,14,100|\
         answer=0|job=2|choice=0|node=0,1,0,100|answer=0|job=3|choice=0|node=0,1,0,100|\
         answer=0|job=4|choice=0|node=0,1,0,100|",
    ),
    (
        "three conditionals, one after the other",
        b"engines=1|tag=0|marks=1|\
          |job=6|period=400|deadline=300|nodes=10|\
          kind=subtask|tag=0|ticks=10|after=-|kind=conditional|after=0|\
          kind=subtask|tag=0|ticks=20|after=1|kind=subtask|tag=0|ticks=30|after=1|\
          kind=conditional|after=2,3|kind=subtask|tag=0|ticks=40|after=4|\
          kind=subtask|tag=0|ticks=50|after=4|kind=conditional|after=5,6|\
          kind=subtask|tag=0|ticks=60|after=7|kind=subtask|tag=0|ticks=70|after=7|",
        "answer=0|job=6|choice=0|node=0,0,0,18|node=2,0,18,60|node=3,0,18,75|node=5,0,75,160|\
         node=6,0,75,168|node=8,0,168,300|node=9,0,168,300|",
    ),
    (
        "an alternative between two conditionals",
        b"engines=2|tag=0|marks=1|tag=1|marks=1|\
          |job=6|period=400|deadline=300|nodes=10|\
          kind=subtask|tag=0|ticks=10|after=-|kind=conditional|after=0|\
          kind=subtask|tag=0|ticks=20|after=1|kind=subtask|tag=0|ticks=30|after=1|\
          kind=alternative|after=2,3|kind=subtask|tag=2|ticks=40|after=4|\
          kind=subtask|tag=1|ticks=50|after=4|kind=conditional|after=5,6|\
          kind=subtask|tag=0|ticks=60|after=7|kind=subtask|tag=1|ticks=70|after=7|",
        "answer=0|job=6|choice=1|node=0,0,0,18|node=2,0,18,60|node=3,0,18,75|node=6,1,75,168|\
         node=8,0,168,300|node=9,1,168,300|",
    ),
];
