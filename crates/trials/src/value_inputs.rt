//! Inputs with values that are malformed or out of range, or just within it: questions 3 and 4.
use crate::inputs::Input;

/// Question 3.
pub const FORM_INPUTS: [Input; 15] = [
    (
        "job numbers that are malformed",
        b"engines=1|tag=0|marks=1||job=||job=0x7||job=07||job=00||job=-||job=-7||job=+7|\
          |job= 7||job=7 ||job=7.0||job=1e3||job=7,8||job==7||job=1_000||job=\xb2|",
        "answer=3,1|answer=3,1|answer=3,1|answer=3,1|answer=3,1|answer=3,1|answer=3,1|\
         answer=3,1|answer=3,1|answer=3,1|answer=3,1|answer=3,1|answer=3,1|answer=3,1|\
         answer=3,1|",
    ),
    (
        "a job number of ten digits",
        b"engines=1|tag=0|marks=1||job=1000000000||job=0000000001||job=9999999999|",
        "answer=3,1|answer=3,1|answer=3,1|",
    ),
    (
        "a job number past all machine words",
        b"engines=1|tag=0|marks=1||job=18446744073709551623||job=4294967303|",
        "answer=3,1|answer=3,1|",
    ),
    (
        "a malformed period",
        b"engines=1|tag=0|marks=1||job=7|period=||job=7|period=0100||job=7|period=100 |",
        "answer=3,2|answer=3,2|answer=3,2|",
    ),
    (
        "a malformed deadline",
        b"engines=1|tag=0|marks=1||job=7|period=100|deadline=-1|\
          |job=7|period=100|deadline=1000000000|",
        "answer=3,3|answer=3,3|",
    ),
    (
        "a malformed count of nodes",
        b"engines=1|tag=0|marks=1||job=7|period=100|deadline=100|nodes=one|\
          |job=7|period=100|deadline=100|nodes=01|",
        "answer=3,4|answer=3,4|",
    ),
    (
        "kinds that are none of the three words",
        b"engines=1|tag=0|marks=1||job=7|period=100|deadline=100|nodes=1|kind=|\
          |job=7|period=100|deadline=100|nodes=1|kind=Subtask|\
          |job=7|period=100|deadline=100|nodes=1|kind=sub-task|\
          |job=7|period=100|deadline=100|nodes=1|kind=subtask |\
          |job=7|period=100|deadline=100|nodes=1|kind=subtasks|\
          |job=7|period=100|deadline=100|nodes=1|kind=alternativ|\
          |job=7|period=100|deadline=100|nodes=1|kind=condition|\
          |job=7|period=100|deadline=100|nodes=1|kind=0|\
          |job=7|period=100|deadline=100|nodes=1|kind=task|",
        "answer=3,5|answer=3,5|answer=3,5|answer=3,5|answer=3,5|answer=3,5|answer=3,5|\
         answer=3,5|answer=3,5|",
    ),
    (
        "a malformed tag",
        b"engines=1|tag=0|marks=1||job=7|period=100|deadline=100|nodes=1|kind=subtask|tag=|\
          |job=7|period=100|deadline=100|nodes=1|kind=subtask|tag=00|\
          |job=7|period=100|deadline=100|nodes=1|kind=subtask|tag=0,1|",
        "answer=3,6|answer=3,6|answer=3,6|",
    ),
    (
        "malformed ticks",
        b"engines=1|tag=0|marks=1|\
          |job=7|period=100|deadline=100|nodes=1|kind=subtask|tag=0|ticks=|\
          |job=7|period=100|deadline=100|nodes=1|kind=subtask|tag=0|ticks=1.5|",
        "answer=3,7|answer=3,7|",
    ),
    (
        "malformed lists of node 0",
        b"engines=1|tag=0|marks=1|\
          |job=7|period=100|deadline=100|nodes=1|kind=subtask|tag=0|ticks=1|after=|\
          |job=7|period=100|deadline=100|nodes=1|kind=subtask|tag=0|ticks=1|after=--|\
          |job=7|period=100|deadline=100|nodes=1|kind=subtask|tag=0|ticks=1|after=-,0|\
          |job=7|period=100|deadline=100|nodes=1|kind=subtask|tag=0|ticks=1|after=0,-|\
          |job=7|period=100|deadline=100|nodes=1|kind=subtask|tag=0|ticks=1|after=none|\
          |job=7|period=100|deadline=100|nodes=1|kind=subtask|tag=0|ticks=1|after=-0|",
        "answer=3,8|answer=3,8|answer=3,8|answer=3,8|answer=3,8|answer=3,8|",
    ),
    (
        "malformed lists of node 2",
        b"engines=1|tag=0|marks=1|\
          |job=7|period=100|deadline=100|nodes=3|\
          kind=subtask|tag=0|ticks=1|after=-|kind=subtask|tag=0|ticks=1|after=-|\
          kind=subtask|tag=0|ticks=1|after=0,|\
          |job=7|period=100|deadline=100|nodes=3|\
          kind=subtask|tag=0|ticks=1|after=-|kind=subtask|tag=0|ticks=1|after=-|\
          kind=subtask|tag=0|ticks=1|after=,0|\
          |job=7|period=100|deadline=100|nodes=3|\
          kind=subtask|tag=0|ticks=1|after=-|kind=subtask|tag=0|ticks=1|after=-|\
          kind=subtask|tag=0|ticks=1|after=0,,1|\
          |job=7|period=100|deadline=100|nodes=3|\
          kind=subtask|tag=0|ticks=1|after=-|kind=subtask|tag=0|ticks=1|after=-|\
          kind=subtask|tag=0|ticks=1|after=1,0|\
          |job=7|period=100|deadline=100|nodes=3|\
          kind=subtask|tag=0|ticks=1|after=-|kind=subtask|tag=0|ticks=1|after=-|\
          kind=subtask|tag=0|ticks=1|after=0,0|\
          |job=7|period=100|deadline=100|nodes=3|\
          kind=subtask|tag=0|ticks=1|after=-|kind=subtask|tag=0|ticks=1|after=-|\
          kind=subtask|tag=0|ticks=1|after=00,1|\
          |job=7|period=100|deadline=100|nodes=3|\
          kind=subtask|tag=0|ticks=1|after=-|kind=subtask|tag=0|ticks=1|after=-|\
          kind=subtask|tag=0|ticks=1|after=0,01|\
          |job=7|period=100|deadline=100|nodes=3|\
          kind=subtask|tag=0|ticks=1|after=-|kind=subtask|tag=0|ticks=1|after=-|\
          kind=subtask|tag=0|ticks=1|after=0 1|\
          |job=7|period=100|deadline=100|nodes=3|\
          kind=subtask|tag=0|ticks=1|after=-|kind=subtask|tag=0|ticks=1|after=-|\
          kind=subtask|tag=0|ticks=1|after=0;1|\
          |job=7|period=100|deadline=100|nodes=3|\
          kind=subtask|tag=0|ticks=1|after=-|kind=subtask|tag=0|ticks=1|after=-|\
          kind=subtask|tag=0|ticks=1|after=0, 1|\
          |job=7|period=100|deadline=100|nodes=3|\
          kind=subtask|tag=0|ticks=1|after=-|kind=subtask|tag=0|ticks=1|after=-|\
          kind=subtask|tag=0|ticks=1|after=0,1,|\
          |job=7|period=100|deadline=100|nodes=3|\
          kind=subtask|tag=0|ticks=1|after=-|kind=subtask|tag=0|ticks=1|after=-|\
          kind=subtask|tag=0|ticks=1|after=0,1000000000|\
          |job=7|period=100|deadline=100|nodes=3|\
          kind=subtask|tag=0|ticks=1|after=-|kind=subtask|tag=0|ticks=1|after=-|\
          kind=subtask|tag=0|ticks=1|after=0,1,1|",
        "answer=3,16|answer=3,16|answer=3,16|answer=3,16|answer=3,16|answer=3,16|answer=3,16|\
         answer=3,16|answer=3,16|answer=3,16|answer=3,16|answer=3,16|answer=3,16|",
    ),
    (
        "a malformed list of an alternative and of a conditional",
        b"engines=1|tag=0|marks=1|\
          |job=7|period=100|deadline=100|nodes=2|\
          kind=subtask|tag=0|ticks=1|after=-|kind=alternative|after=|\
          |job=7|period=100|deadline=100|nodes=2|\
          kind=subtask|tag=0|ticks=1|after=-|kind=conditional|after=0,|",
        "answer=3,10|answer=3,10|",
    ),
    (
        "a malformed list with a number out of range",
        b"engines=1|tag=0|marks=1|\
          |job=7|period=100|deadline=100|nodes=2|\
          kind=subtask|tag=0|ticks=1|after=-|kind=subtask|tag=0|ticks=1|after=9,8|\
          |job=7|period=100|deadline=100|nodes=2|\
          kind=subtask|tag=0|ticks=1|after=-|kind=subtask|tag=0|ticks=1|after=9,x|",
        "answer=3,12|answer=3,12|",
    ),
    (
        "the last line of 24 nodes is malformed",
        b"engines=1|tag=0|marks=1|\
          |job=7|period=100|deadline=100|nodes=24|\
          kind=subtask|tag=0|ticks=1|after=-|kind=subtask|tag=0|ticks=1|after=-|\
          kind=subtask|tag=0|ticks=1|after=-|kind=subtask|tag=0|ticks=1|after=-|\
          kind=subtask|tag=0|ticks=1|after=-|kind=subtask|tag=0|ticks=1|after=-|\
          kind=subtask|tag=0|ticks=1|after=-|kind=subtask|tag=0|ticks=1|after=-|\
          kind=subtask|tag=0|ticks=1|after=-|kind=subtask|tag=0|ticks=1|after=-|\
          kind=subtask|tag=0|ticks=1|after=-|kind=subtask|tag=0|ticks=1|after=-|\
          kind=subtask|tag=0|ticks=1|after=-|kind=subtask|tag=0|ticks=1|after=-|\
          kind=subtask|tag=0|ticks=1|after=-|kind=subtask|tag=0|ticks=1|after=-|\
          kind=subtask|tag=0|ticks=1|after=-|kind=subtask|tag=0|ticks=1|after=-|\
          kind=subtask|tag=0|ticks=1|after=-|kind=subtask|tag=0|ticks=1|after=-|\
          kind=subtask|tag=0|ticks=1|after=-|kind=subtask|tag=0|ticks=1|after=-|\
          kind=subtask|tag=0|ticks=1|after=-|kind=subtask|tag=0|ticks=1|after=1,1|",
        "answer=3,100|",
    ),
    (
        "a form fault before a missing line and before bytes that follow",
        b"engines=1|tag=0|marks=1||job=7|period=x|\
          |job=7|period=100|deadline=100|nodes=1|kind=subtask|tag=0|ticks=1|after=x|x",
        "answer=3,2|answer=3,8|",
    ),
];

/// Question 4, and values at the ends of their ranges.
pub const RANGE_INPUTS: [Input; 19] = [
    (
        "job numbers out of range",
        b"engines=1|tag=0|marks=1||job=0||job=65536||job=999999999|",
        "answer=4,1|answer=4,1|answer=4,1|",
    ),
    (
        "job numbers at the ends of the range",
        b"engines=1|tag=0|marks=1||job=1||job=65535|",
        "answer=2,2|answer=2,2|",
    ),
    (
        "periods that do not divide a belt cycle",
        b"engines=1|tag=0|marks=1||job=7|period=0||job=7|period=7||job=7|period=11|\
          |job=7|period=13||job=7|period=17||job=7|period=19||job=7|period=21|\
          |job=7|period=27||job=7|period=35||job=7|period=128||job=7|period=625|\
          |job=7|period=1000||job=7|period=9600||job=7|period=14399||job=7|period=14401|\
          |job=7|period=28800||job=7|period=999999999|",
        "answer=4,2|answer=4,2|answer=4,2|answer=4,2|answer=4,2|answer=4,2|answer=4,2|\
         answer=4,2|answer=4,2|answer=4,2|answer=4,2|answer=4,2|answer=4,2|answer=4,2|\
         answer=4,2|answer=4,2|answer=4,2|",
    ),
    (
        "every period that divides a belt cycle",
        b"engines=1|tag=0|marks=1||job=7|period=1||job=7|period=2||job=7|period=3|\
          |job=7|period=4||job=7|period=5||job=7|period=6||job=7|period=8||job=7|period=9|\
          |job=7|period=10||job=7|period=12||job=7|period=15||job=7|period=16|\
          |job=7|period=18||job=7|period=20||job=7|period=24||job=7|period=25|\
          |job=7|period=30||job=7|period=32||job=7|period=36||job=7|period=40|\
          |job=7|period=45||job=7|period=48||job=7|period=50||job=7|period=60|\
          |job=7|period=64||job=7|period=72||job=7|period=75||job=7|period=80|\
          |job=7|period=90||job=7|period=96||job=7|period=100||job=7|period=120|\
          |job=7|period=144||job=7|period=150||job=7|period=160||job=7|period=180|\
          |job=7|period=192||job=7|period=200||job=7|period=225||job=7|period=240|\
          |job=7|period=288||job=7|period=300||job=7|period=320||job=7|period=360|\
          |job=7|period=400||job=7|period=450||job=7|period=480||job=7|period=576|\
          |job=7|period=600||job=7|period=720||job=7|period=800||job=7|period=900|\
          |job=7|period=960||job=7|period=1200||job=7|period=1440||job=7|period=1600|\
          |job=7|period=1800||job=7|period=2400||job=7|period=2880||job=7|period=3600|\
          |job=7|period=4800||job=7|period=7200||job=7|period=14400|",
        "answer=2,3|answer=2,3|answer=2,3|answer=2,3|answer=2,3|answer=2,3|answer=2,3|\
         answer=2,3|answer=2,3|answer=2,3|answer=2,3|answer=2,3|answer=2,3|answer=2,3|\
         answer=2,3|answer=2,3|answer=2,3|answer=2,3|answer=2,3|answer=2,3|answer=2,3|\
         answer=2,3|answer=2,3|answer=2,3|answer=2,3|answer=2,3|answer=2,3|answer=2,3|\
         answer=2,3|answer=2,3|answer=2,3|answer=2,3|answer=2,3|answer=2,3|answer=2,3|\
         answer=2,3|answer=2,3|answer=2,3|answer=2,3|answer=2,3|answer=2,3|answer=2,3|\
         answer=2,3|answer=2,3|answer=2,3|answer=2,3|answer=2,3|answer=2,3|answer=2,3|\
         answer=2,3|answer=2,3|answer=2,3|answer=2,3|answer=2,3|answer=2,3|answer=2,3|\
         answer=2,3|answer=2,3|answer=2,3|answer=2,3|answer=2,3|answer=2,3|answer=2,3|",
    ),
    (
        "deadlines out of range",
        b"engines=1|tag=0|marks=1||job=7|period=100|deadline=0||job=7|period=100|deadline=101|\
          |job=7|period=1|deadline=2||job=7|period=14400|deadline=14401|",
        "answer=4,3|answer=4,3|answer=4,3|answer=4,3|",
    ),
    (
        "counts of nodes out of range",
        b"engines=1|tag=0|marks=1||job=7|period=100|deadline=100|nodes=0|\
          |job=7|period=100|deadline=100|nodes=25|\
          |job=7|period=100|deadline=100|nodes=999999999|",
        "answer=4,4|answer=4,4|answer=4,4|",
    ),
    (
        "tags out of range",
        b"engines=1|tag=0|marks=1||job=7|period=100|deadline=100|nodes=1|kind=subtask|tag=8|\
          |job=7|period=100|deadline=100|nodes=1|kind=subtask|tag=10|\
          |job=7|period=100|deadline=100|nodes=1|kind=subtask|tag=999999999|",
        "answer=4,6|answer=4,6|answer=4,6|",
    ),
    (
        "ticks out of range",
        b"engines=1|tag=0|marks=1|\
          |job=7|period=100|deadline=100|nodes=1|kind=subtask|tag=7|ticks=0|\
          |job=7|period=100|deadline=100|nodes=1|kind=subtask|tag=7|ticks=14401|\
          |job=7|period=100|deadline=100|nodes=1|kind=subtask|tag=7|ticks=999999999|",
        "answer=4,7|answer=4,7|answer=4,7|",
    ),
    (
        "node 0 comes after a node",
        b"engines=1|tag=0|marks=1|\
          |job=7|period=100|deadline=100|nodes=1|kind=subtask|tag=0|ticks=1|after=0|\
          |job=7|period=100|deadline=100|nodes=1|kind=subtask|tag=0|ticks=1|after=1|\
          |job=7|period=100|deadline=100|nodes=1|kind=subtask|tag=0|ticks=1|after=0,1|\
          |job=7|period=100|deadline=100|nodes=1|kind=subtask|tag=0|ticks=1|after=999999999|",
        "answer=4,8|answer=4,8|answer=4,8|answer=4,8|",
    ),
    (
        "node 2 comes after itself or a higher node",
        b"engines=1|tag=0|marks=1|\
          |job=7|period=100|deadline=100|nodes=3|\
          kind=subtask|tag=0|ticks=1|after=-|kind=subtask|tag=0|ticks=1|after=-|\
          kind=subtask|tag=0|ticks=1|after=2|\
          |job=7|period=100|deadline=100|nodes=3|\
          kind=subtask|tag=0|ticks=1|after=-|kind=subtask|tag=0|ticks=1|after=-|\
          kind=subtask|tag=0|ticks=1|after=0,2|\
          |job=7|period=100|deadline=100|nodes=3|\
          kind=subtask|tag=0|ticks=1|after=-|kind=subtask|tag=0|ticks=1|after=-|\
          kind=subtask|tag=0|ticks=1|after=0,1,2|\
          |job=7|period=100|deadline=100|nodes=3|\
          kind=subtask|tag=0|ticks=1|after=-|kind=subtask|tag=0|ticks=1|after=-|\
          kind=subtask|tag=0|ticks=1|after=1,23|\
          |job=7|period=100|deadline=100|nodes=3|\
          kind=subtask|tag=0|ticks=1|after=-|kind=subtask|tag=0|ticks=1|after=-|\
          kind=subtask|tag=0|ticks=1|after=3|\
          |job=7|period=100|deadline=100|nodes=3|\
          kind=subtask|tag=0|ticks=1|after=-|kind=subtask|tag=0|ticks=1|after=-|\
          kind=subtask|tag=0|ticks=1|after=0,999999999|",
        "answer=4,16|answer=4,16|answer=4,16|answer=4,16|answer=4,16|answer=4,16|",
    ),
    (
        "a fork comes after itself",
        b"engines=1|tag=0|marks=1|\
          |job=7|period=100|deadline=100|nodes=2|\
          kind=subtask|tag=0|ticks=1|after=-|kind=alternative|after=1|\
          |job=7|period=100|deadline=100|nodes=2|\
          kind=subtask|tag=0|ticks=1|after=-|kind=conditional|after=0,1|",
        "answer=4,10|answer=4,10|",
    ),
    (
        "node 0 is a fork and comes after itself",
        b"engines=1|tag=0|marks=1|\
          |job=7|period=100|deadline=100|nodes=1|kind=conditional|after=0|",
        "answer=4,6|",
    ),
    (
        "a fault of line 2 comes before one of line 3",
        b"engines=1|tag=0|marks=1||job=7|period=7|deadline=x||job=7|period=7|",
        "answer=4,2|answer=4,2|",
    ),
    (
        "a range fault in the last line, and bytes that follow",
        b"engines=1|tag=0|marks=1|\
          |job=7|period=100|deadline=100|nodes=1|kind=subtask|tag=0|ticks=1|after=0|x",
        "answer=4,8|",
    ),
    (
        "the largest number, period, deadline, tag and ticks",
        b"engines=1|tag=7|marks=1|\
          |job=65535|period=14400|deadline=14400|nodes=1|\
          kind=subtask|tag=7|ticks=14400|after=-|",
        "answer=0|job=65535|choice=0|node=0,0,0,14400|",
    ),
    (
        "the smallest number, period, deadline, tag and ticks",
        b"engines=1|tag=0|marks=1|\
          |job=1|period=1|deadline=1|nodes=1|kind=subtask|tag=0|ticks=1|after=-|",
        "answer=0|job=1|choice=0|node=0,0,0,1|",
    ),
    (
        "24 nodes in a row",
        b"engines=1|tag=0|marks=1|\
          |job=24|period=24|deadline=24|nodes=24|\
          kind=subtask|tag=0|ticks=1|after=-|kind=subtask|tag=0|ticks=1|after=0|\
          kind=subtask|tag=0|ticks=1|after=1|kind=subtask|tag=0|ticks=1|after=2|\
          kind=subtask|tag=0|ticks=1|after=3|kind=subtask|tag=0|ticks=1|after=4|\
          kind=subtask|tag=0|ticks=1|after=5|kind=subtask|tag=0|ticks=1|after=6|\
          kind=subtask|tag=0|ticks=1|after=7|kind=subtask|tag=0|ticks=1|after=8|\
          kind=subtask|tag=0|ticks=1|after=9|kind=subtask|tag=0|ticks=1|after=10|\
          kind=subtask|tag=0|ticks=1|after=11|kind=subtask|tag=0|ticks=1|after=12|\
          kind=subtask|tag=0|ticks=1|after=13|kind=subtask|tag=0|ticks=1|after=14|\
          kind=subtask|tag=0|ticks=1|after=15|kind=subtask|tag=0|ticks=1|after=16|\
          kind=subtask|tag=0|ticks=1|after=17|kind=subtask|tag=0|ticks=1|after=18|\
          kind=subtask|tag=0|ticks=1|after=19|kind=subtask|tag=0|ticks=1|after=20|\
          kind=subtask|tag=0|ticks=1|after=21|kind=subtask|tag=0|ticks=1|after=22|",
        "answer=0|job=24|choice=0|node=0,0,0,1|node=1,0,1,2|node=2,0,2,3|node=3,0,3,4|\
         node=4,0,4,5|node=5,0,5,6|node=6,0,6,7|node=7,0,7,8|node=8,0,8,9|node=9,0,9,10|\
         node=10,0,10,11|node=11,0,11,12|node=12,0,12,13|node=13,0,13,14|node=14,0,14,15|\
         node=15,0,15,16|node=16,0,16,17|node=17,0,17,18|node=18,0,18,19|node=19,0,19,20|\
         node=20,0,20,21|node=21,0,21,22|node=22,0,22,23|node=23,0,23,24|",
    ),
    (
        "24 nodes, of which each comes after all before it",
        b"engines=1|tag=0|marks=1|\
          |job=24|period=144|deadline=100|nodes=24|\
          kind=subtask|tag=0|ticks=1|after=-|kind=subtask|tag=0|ticks=2|after=0|\
          kind=subtask|tag=0|ticks=3|after=0,1|kind=subtask|tag=0|ticks=1|after=0,1,2|\
          kind=subtask|tag=0|ticks=2|after=0,1,2,3|kind=subtask|tag=0|ticks=3|after=0,1,2,3,4|\
          kind=subtask|tag=0|ticks=1|after=0,1,2,3,4,5|\
          kind=subtask|tag=0|ticks=2|after=0,1,2,3,4,5,6|\
          kind=subtask|tag=0|ticks=3|after=0,1,2,3,4,5,6,7|\
          kind=subtask|tag=0|ticks=1|after=0,1,2,3,4,5,6,7,8|\
          kind=subtask|tag=0|ticks=2|after=0,1,2,3,4,5,6,7,8,9|\
          kind=subtask|tag=0|ticks=3|after=0,1,2,3,4,5,6,7,8,9,10|\
          kind=subtask|tag=0|ticks=1|after=0,1,2,3,4,5,6,7,8,9,10,11|\
          kind=subtask|tag=0|ticks=2|after=0,1,2,3,4,5,6,7,8,9,10,11,12|\
          kind=subtask|tag=0|ticks=3|after=0,1,2,3,4,5,6,7,8,9,10,11,12,13|\
          kind=subtask|tag=0|ticks=1|after=0,1,2,3,4,5,6,7,8,9,10,11,12,13,14|\
          kind=subtask|tag=0|ticks=2|after=0,1,2,3,4,5,6,7,8,9,10,11,12,13,14,15|\
          kind=subtask|tag=0|ticks=3|after=0,1,2,3,4,5,6,7,8,9,10,11,12,13,14,15,16|\
          kind=subtask|tag=0|ticks=1|after=0,1,2,3,4,5,6,7,8,9,10,11,12,13,14,15,16,17|\
          kind=subtask|tag=0|ticks=2|after=0,1,2,3,4,5,6,7,8,9,10,11,12,13,14,15,16,17,18|\
          kind=subtask|tag=0|ticks=3|after=0,1,2,3,4,5,6,7,8,9,10,11,12,13,14,15,16,17,18,19|\
          kind=subtask|tag=0|ticks=1|\
          after=0,1,2,3,4,5,6,7,8,9,10,11,12,13,14,15,16,17,18,19,20|\
          kind=subtask|tag=0|ticks=2|\
          after=0,1,2,3,4,5,6,7,8,9,10,11,12,13,14,15,16,17,18,19,20,21|\
          kind=subtask|tag=0|ticks=3|\
          after=0,1,2,3,4,5,6,7,8,9,10,11,12,13,14,15,16,17,18,19,20,21,22|",
        "answer=0|job=24|choice=0|node=0,0,0,2|node=1,0,2,6|node=2,0,6,12|node=3,0,12,14|\
         node=4,0,14,18|node=5,0,18,25|node=6,0,25,27|node=7,0,27,31|node=8,0,31,37|\
         node=9,0,37,39|node=10,0,39,43|node=11,0,43,50|node=12,0,50,52|node=13,0,52,56|\
         node=14,0,56,62|node=15,0,62,64|node=16,0,64,68|node=17,0,68,75|node=18,0,75,77|\
         node=19,0,77,81|node=20,0,81,87|node=21,0,87,89|node=22,0,89,93|node=23,0,93,100|",
    ),
    (
        "ticks beyond the deadline are read",
        b"engines=1|tag=0|marks=1|\
          |job=3|period=100|deadline=1|nodes=2|\
          kind=subtask|tag=0|ticks=14400|after=-|kind=subtask|tag=0|ticks=14400|after=0|\
          |job=3|period=100|deadline=1|nodes=1|kind=subtask|tag=0|ticks=1|after=-|",
        "answer=9,0|answer=0|job=3|choice=0|node=0,0,0,1|",
    ),
];
