//! Inputs that ask which engine a part gets, and whether there is room for it.
use crate::inputs::Input;

/// Tags, engines, loads, and windows that just fit.
pub const PLACING_INPUTS: [Input; 29] = [
    (
        "the only engine has another tag",
        b"engines=1|tag=1|marks=1|\
          |job=1|period=100|deadline=100|nodes=1|kind=subtask|tag=0|ticks=1|after=-|",
        "answer=10,0|",
    ),
    (
        "a tag that no engine has, in the second of two parts",
        b"engines=1|tag=0|marks=1|\
          |job=1|period=100|deadline=100|nodes=2|\
          kind=subtask|tag=0|ticks=1|after=-|kind=subtask|tag=5|ticks=1|after=-|",
        "answer=10,0|",
    ),
    (
        "eight parts on eight engines, in reverse",
        b"engines=8|tag=7|marks=1|tag=6|marks=1|tag=5|marks=1|tag=4|marks=1|tag=3|marks=1|\
          tag=2|marks=1|tag=1|marks=1|tag=0|marks=1|\
          |job=8|period=240|deadline=240|nodes=8|\
          kind=subtask|tag=0|ticks=240|after=-|kind=subtask|tag=1|ticks=240|after=-|\
          kind=subtask|tag=2|ticks=240|after=-|kind=subtask|tag=3|ticks=240|after=-|\
          kind=subtask|tag=4|ticks=240|after=-|kind=subtask|tag=5|ticks=240|after=-|\
          kind=subtask|tag=6|ticks=240|after=-|kind=subtask|tag=7|ticks=240|after=-|",
        "answer=0|job=8|choice=0|node=0,7,0,240|node=1,6,0,240|node=2,5,0,240|node=3,4,0,240|\
         node=4,3,0,240|node=5,2,0,240|node=6,1,0,240|node=7,0,0,240|",
    ),
    (
        "eight parts, of which the last does not fit",
        b"engines=8|tag=0|marks=1|tag=1|marks=1|tag=2|marks=1|tag=3|marks=1|tag=4|marks=1|\
          tag=5|marks=1|tag=6|marks=1|tag=7|marks=10|\
          |job=8|period=240|deadline=240|nodes=8|\
          kind=subtask|tag=0|ticks=121|after=-|kind=subtask|tag=1|ticks=121|after=-|\
          kind=subtask|tag=2|ticks=121|after=-|kind=subtask|tag=3|ticks=121|after=-|\
          kind=subtask|tag=4|ticks=121|after=-|kind=subtask|tag=5|ticks=121|after=-|\
          kind=subtask|tag=6|ticks=121|after=-|kind=subtask|tag=7|ticks=121|after=-|",
        "answer=10,0|",
    ),
    (
        "the parts of one job take no room from each other",
        b"engines=2|tag=0|marks=1|tag=1|marks=1|\
          |job=1|period=50|deadline=50|nodes=2|\
          kind=subtask|tag=0|ticks=50|after=-|kind=subtask|tag=1|ticks=50|after=-|",
        "answer=0|job=1|choice=0|node=0,0,0,50|node=1,1,0,50|",
    ),
    (
        "parts of two tags that take turns",
        b"engines=2|tag=1|marks=1|tag=0|marks=1|\
          |job=1|period=100|deadline=90|nodes=4|\
          kind=subtask|tag=0|ticks=10|after=-|kind=subtask|tag=1|ticks=20|after=0|\
          kind=subtask|tag=0|ticks=30|after=1|kind=subtask|tag=1|ticks=25|after=2|",
        "answer=0|job=1|choice=0|node=0,1,0,10|node=1,0,10,31|node=2,1,31,63|node=3,0,63,90|",
    ),
    (
        "a part is not parted between engines",
        b"engines=2|tag=0|marks=1|tag=0|marks=1|\
          |job=1|period=100|deadline=60|nodes=2|\
          kind=subtask|tag=0|ticks=31|after=-|kind=subtask|tag=0|ticks=30|after=-|",
        "answer=10,0|",
    ),
    (
        "the second engine where the first has no room",
        b"engines=2|tag=0|marks=1|tag=0|marks=1|\
          |job=1|period=100|deadline=100|nodes=1|kind=subtask|tag=0|ticks=80|after=-|\
          |job=2|period=100|deadline=100|nodes=1|kind=subtask|tag=0|ticks=21|after=-|\
          |job=3|period=100|deadline=100|nodes=1|kind=subtask|tag=0|ticks=20|after=-|",
        "answer=0|job=1|choice=0|node=0,0,0,100|answer=0|job=2|choice=0|node=0,1,0,100|\
         answer=0|job=3|choice=0|node=0,0,0,100|",
    ),
    (
        "engine 0 first among equals",
        b"engines=3|tag=0|marks=10|tag=0|marks=1|tag=0|marks=1|\
          |job=1|period=100|deadline=100|nodes=1|kind=subtask|tag=0|ticks=51|after=-|\
          |job=2|period=100|deadline=100|nodes=1|kind=subtask|tag=0|ticks=50|after=-|\
          |job=3|period=100|deadline=100|nodes=1|kind=subtask|tag=0|ticks=50|after=-|\
          |job=4|period=100|deadline=100|nodes=1|kind=subtask|tag=0|ticks=49|after=-|",
        "answer=0|job=1|choice=0|node=0,1,0,100|answer=0|job=2|choice=0|node=0,0,0,100|\
         answer=0|job=3|choice=0|node=0,2,0,100|answer=0|job=4|choice=0|node=0,1,0,100|",
    ),
    (
        "the fullest engine first, by ticks per belt cycle",
        b"engines=2|tag=0|marks=1|tag=0|marks=1|\
          |job=1|period=14400|deadline=100|nodes=1|kind=subtask|tag=0|ticks=90|after=-|\
          |job=2|period=20|deadline=20|nodes=1|kind=subtask|tag=0|ticks=15|after=-|\
          |job=3|period=14400|deadline=14400|nodes=1|kind=subtask|tag=0|ticks=1|after=-|",
        "answer=0|job=1|choice=0|node=0,0,0,100|answer=0|job=2|choice=0|node=0,1,0,20|\
         answer=0|job=3|choice=0|node=0,1,0,14400|",
    ),
    (
        "equal loads of different periods",
        b"engines=2|tag=0|marks=1|tag=0|marks=1|\
          |job=1|period=200|deadline=100|nodes=1|kind=subtask|tag=0|ticks=80|after=-|\
          |job=2|period=100|deadline=50|nodes=1|kind=subtask|tag=0|ticks=40|after=-|\
          |job=3|period=100|deadline=100|nodes=1|kind=subtask|tag=0|ticks=20|after=-|",
        "answer=0|job=1|choice=0|node=0,0,0,100|answer=0|job=2|choice=0|node=0,1,0,50|\
         answer=0|job=3|choice=0|node=0,0,0,100|",
    ),
    (
        "two parts, each on the fullest engine of its tag",
        b"engines=4|tag=0|marks=1|tag=1|marks=1|tag=0|marks=1|tag=1|marks=1|\
          |job=1|period=100|deadline=100|nodes=2|\
          kind=subtask|tag=0|ticks=60|after=-|kind=subtask|tag=1|ticks=70|after=-|\
          |job=2|period=100|deadline=100|nodes=2|\
          kind=subtask|tag=0|ticks=60|after=-|kind=subtask|tag=1|ticks=20|after=-|\
          |job=3|period=100|deadline=100|nodes=2|\
          kind=subtask|tag=0|ticks=41|after=-|kind=subtask|tag=1|ticks=11|after=-|\
          |job=4|period=100|deadline=100|nodes=2|\
          kind=subtask|tag=0|ticks=40|after=-|kind=subtask|tag=1|ticks=10|after=-|",
        "answer=0|job=1|choice=0|node=0,0,0,100|node=1,1,0,100|\
         answer=0|job=2|choice=0|node=0,2,0,100|node=1,1,0,100|answer=10,0|\
         answer=0|job=4|choice=0|node=0,0,0,100|node=1,1,0,100|",
    ),
    (
        "deadlines shorter than periods",
        b"engines=1|tag=0|marks=1|\
          |job=1|period=20|deadline=5|nodes=1|kind=subtask|tag=0|ticks=3|after=-|\
          |job=2|period=20|deadline=5|nodes=1|kind=subtask|tag=0|ticks=2|after=-|\
          |job=3|period=20|deadline=6|nodes=1|kind=subtask|tag=0|ticks=2|after=-|\
          |job=4|period=20|deadline=6|nodes=1|kind=subtask|tag=0|ticks=1|after=-|",
        "answer=0|job=1|choice=0|node=0,0,0,5|answer=0|job=2|choice=0|node=0,0,0,5|\
         answer=10,0|answer=0|job=4|choice=0|node=0,0,0,6|",
    ),
    (
        "a chain that leaves five of any ten ticks",
        b"engines=1|tag=0|marks=1|\
          |job=1|period=40|deadline=20|nodes=2|\
          kind=subtask|tag=0|ticks=5|after=-|kind=subtask|tag=0|ticks=5|after=0|\
          |job=2|period=40|deadline=10|nodes=1|kind=subtask|tag=0|ticks=6|after=-|\
          |job=3|period=40|deadline=10|nodes=1|kind=subtask|tag=0|ticks=5|after=-|",
        "answer=0|job=1|choice=0|node=0,0,0,10|node=1,0,10,20|answer=10,0|\
         answer=0|job=3|choice=0|node=0,0,0,10|",
    ),
    (
        "a chain on one engine that is rounded down",
        b"engines=1|tag=0|marks=1|\
          |job=1|period=100|deadline=100|nodes=3|\
          kind=subtask|tag=0|ticks=1|after=-|kind=subtask|tag=0|ticks=1|after=0|\
          kind=subtask|tag=0|ticks=1|after=1|\
          |job=2|period=100|deadline=33|nodes=1|kind=subtask|tag=0|ticks=33|after=-|\
          |job=3|period=100|deadline=33|nodes=1|kind=subtask|tag=0|ticks=32|after=-|",
        "answer=0|job=1|choice=0|node=0,0,0,33|node=1,0,33,66|node=2,0,66,100|answer=10,0|\
         answer=0|job=3|choice=0|node=0,0,0,33|",
    ),
    (
        "a single tick in a single tick",
        b"engines=1|tag=0|marks=1|\
          |job=1|period=1|deadline=1|nodes=1|kind=subtask|tag=0|ticks=1|after=-|\
          |job=2|period=14400|deadline=14400|nodes=1|kind=subtask|tag=0|ticks=1|after=-|",
        "answer=0|job=1|choice=0|node=0,0,0,1|answer=10,0|",
    ),
    (
        "two ticks in three and in four on marks 10",
        b"engines=1|tag=0|marks=10|\
          |job=1|period=4|deadline=3|nodes=1|kind=subtask|tag=0|ticks=2|after=-|\
          |job=2|period=4|deadline=4|nodes=1|kind=subtask|tag=0|ticks=2|after=-|",
        "answer=10,0|answer=0|job=2|choice=0|node=0,0,0,4|",
    ),
    (
        "marks 1100 and 1010 serve as much, but not as soon",
        b"engines=2|tag=0|marks=1100|tag=1|marks=1010|\
          |job=1|period=4|deadline=2|nodes=1|kind=subtask|tag=0|ticks=1|after=-|\
          |job=2|period=4|deadline=2|nodes=1|kind=subtask|tag=1|ticks=1|after=-|\
          |job=3|period=4|deadline=3|nodes=1|kind=subtask|tag=0|ticks=1|after=-|\
          |job=4|period=4|deadline=4|nodes=1|kind=subtask|tag=0|ticks=1|after=-|",
        "answer=10,0|answer=0|job=2|choice=0|node=0,1,0,2|\
         answer=0|job=3|choice=0|node=0,0,0,3|answer=0|job=4|choice=0|node=0,0,0,4|",
    ),
    (
        "marks that turn round: 0110 and 1001",
        b"engines=2|tag=0|marks=0110|tag=1|marks=1001|\
          |job=1|period=4|deadline=3|nodes=1|kind=subtask|tag=0|ticks=1|after=-|\
          |job=2|period=4|deadline=3|nodes=1|kind=subtask|tag=1|ticks=1|after=-|\
          |job=3|period=4|deadline=2|nodes=1|kind=subtask|tag=1|ticks=1|after=-|",
        "answer=0|job=1|choice=0|node=0,0,0,3|answer=0|job=2|choice=0|node=0,1,0,3|\
         answer=10,0|",
    ),
    (
        "one served tick in 240",
        b"engines=1|tag=0|\
          marks=000000000000000000000000000000000000000000000000000000000000000000000000000000000000000000000000000000000000000000000000000000000000000000000000000000000000000000000000000000000000000000000000000000000000000000000000000000000000000000000001|\
          |job=1|period=480|deadline=479|nodes=1|kind=subtask|tag=0|ticks=2|after=-|\
          |job=2|period=480|deadline=480|nodes=1|kind=subtask|tag=0|ticks=2|after=-|\
          |job=3|period=14400|deadline=14400|nodes=1|kind=subtask|tag=0|ticks=1|after=-|",
        "answer=10,0|answer=0|job=2|choice=0|node=0,0,0,480|answer=10,0|",
    ),
    (
        "239 served ticks in 240",
        b"engines=1|tag=0|\
          marks=111111111111111111111111111111111111111111111111111111111111111111111111111111111111111111111111111111111111111111111111111111111111111111111111111111111111111111111111111111111111111111111111111111111111111111111111111111111111111111111110|\
          |job=1|period=240|deadline=240|nodes=1|kind=subtask|tag=0|ticks=240|after=-|\
          |job=2|period=240|deadline=239|nodes=1|kind=subtask|tag=0|ticks=239|after=-|\
          |job=3|period=240|deadline=239|nodes=1|kind=subtask|tag=0|ticks=238|after=-|\
          |job=4|period=240|deadline=240|nodes=1|kind=subtask|tag=0|ticks=1|after=-|",
        "answer=10,0|answer=10,0|answer=0|job=3|choice=0|node=0,0,0,239|\
         answer=0|job=4|choice=0|node=0,0,0,240|",
    ),
    (
        "periods of 9 on marks of 16",
        b"engines=1|tag=0|marks=1101101101101101|\
          |job=1|period=9|deadline=9|nodes=1|kind=subtask|tag=0|ticks=5|after=-|\
          |job=2|period=16|deadline=16|nodes=1|kind=subtask|tag=0|ticks=2|after=-|",
        "answer=0|job=1|choice=0|node=0,0,0,9|answer=0|job=2|choice=0|node=0,0,0,16|",
    ),
    (
        "periods of 9 on marks of 16, a tick too much",
        b"engines=1|tag=0|marks=1101101101101101|\
          |job=1|period=9|deadline=9|nodes=1|kind=subtask|tag=0|ticks=6|after=-|\
          |job=2|period=16|deadline=16|nodes=1|kind=subtask|tag=0|ticks=1|after=-|",
        "answer=0|job=1|choice=0|node=0,0,0,9|answer=10,0|",
    ),
    (
        "periods of 64 and 225 fill an engine",
        b"engines=1|tag=0|marks=1|\
          |job=1|period=64|deadline=64|nodes=1|kind=subtask|tag=0|ticks=32|after=-|\
          |job=2|period=225|deadline=225|nodes=1|kind=subtask|tag=0|ticks=112|after=-|\
          |job=3|period=14400|deadline=14400|nodes=1|kind=subtask|tag=0|ticks=32|after=-|\
          |job=4|period=14400|deadline=14400|nodes=1|kind=subtask|tag=0|ticks=1|after=-|",
        "answer=0|job=1|choice=0|node=0,0,0,64|answer=0|job=2|choice=0|node=0,0,0,225|\
         answer=0|job=3|choice=0|node=0,0,0,14400|answer=10,0|",
    ),
    (
        "deadlines of one, two and three ticks",
        b"engines=1|tag=0|marks=1|\
          |job=1|period=6|deadline=1|nodes=1|kind=subtask|tag=0|ticks=1|after=-|\
          |job=2|period=5|deadline=2|nodes=1|kind=subtask|tag=0|ticks=2|after=-|\
          |job=3|period=5|deadline=3|nodes=1|kind=subtask|tag=0|ticks=2|after=-|",
        "answer=0|job=1|choice=0|node=0,0,0,1|answer=10,0|\
         answer=0|job=3|choice=0|node=0,0,0,3|",
    ),
    (
        "three windows of two arrivals in fifteen ticks",
        b"engines=1|tag=0|marks=1|\
          |job=1|period=10|deadline=10|nodes=2|\
          kind=subtask|tag=0|ticks=3|after=-|kind=subtask|tag=0|ticks=3|after=0|\
          |job=2|period=30|deadline=14|nodes=1|kind=subtask|tag=0|ticks=7|after=-|\
          |job=3|period=30|deadline=16|nodes=1|kind=subtask|tag=0|ticks=7|after=-|",
        "answer=0|job=1|choice=0|node=0,0,0,5|node=1,0,5,10|answer=10,0|\
         answer=0|job=3|choice=0|node=0,0,0,16|",
    ),
    (
        "the last tick of a belt cycle",
        b"engines=1|tag=0|marks=1|\
          |job=1|period=14400|deadline=14400|nodes=1|kind=subtask|tag=0|ticks=14399|after=-|\
          |job=2|period=14400|deadline=14400|nodes=1|kind=subtask|tag=0|ticks=2|after=-|\
          |job=3|period=14400|deadline=14400|nodes=1|kind=subtask|tag=0|ticks=1|after=-|",
        "answer=0|job=1|choice=0|node=0,0,0,14400|answer=10,0|\
         answer=0|job=3|choice=0|node=0,0,0,14400|",
    ),
    (
        "an engine of the tag that stands last",
        b"engines=4|tag=1|marks=1|tag=2|marks=1|tag=0|marks=10|tag=0|marks=1|\
          |job=1|period=10|deadline=10|nodes=1|kind=subtask|tag=0|ticks=6|after=-|\
          |job=2|period=10|deadline=10|nodes=1|kind=subtask|tag=0|ticks=5|after=-|\
          |job=3|period=10|deadline=10|nodes=1|kind=subtask|tag=0|ticks=4|after=-|",
        "answer=0|job=1|choice=0|node=0,3,0,10|answer=0|job=2|choice=0|node=0,2,0,10|\
         answer=0|job=3|choice=0|node=0,3,0,10|",
    ),
    (
        "a part that would fit is not placed without the other",
        b"engines=2|tag=0|marks=1|tag=1|marks=10|\
          |job=1|period=10|deadline=10|nodes=2|\
          kind=subtask|tag=0|ticks=5|after=-|kind=subtask|tag=1|ticks=6|after=-|\
          |job=2|period=10|deadline=10|nodes=1|kind=subtask|tag=0|ticks=10|after=-|",
        "answer=10,0|answer=0|job=2|choice=0|node=0,0,0,10|",
    ),
];

/// Boards that are short of ticks only in many ticks in a row.
pub const FAR_INPUTS: [Input; 6] = [
    (
        "13,200 ticks are the first that are too few, and then a job of a tick less",
        b"engines=1|tag=0|marks=1110|\
          |job=1|period=576|deadline=524|nodes=1|kind=subtask|tag=0|ticks=155|after=-|\
          |job=2|period=75|deadline=75|nodes=1|kind=subtask|tag=0|ticks=16|after=-|\
          |job=3|period=600|deadline=600|nodes=1|kind=subtask|tag=0|ticks=160|after=-|\
          |job=9|period=600|deadline=600|nodes=1|kind=subtask|tag=0|ticks=159|after=-|",
        "answer=0|job=1|choice=0|node=0,0,0,524|answer=0|job=2|choice=0|node=0,0,0,75|\
         answer=10,0|answer=0|job=9|choice=0|node=0,0,0,600|",
    ),
    (
        "5,760 ticks are the first that are too few, and then a job of a tick less",
        b"engines=1|tag=0|marks=1|\
          |job=1|period=480|deadline=477|nodes=1|kind=subtask|tag=0|ticks=228|after=-|\
          |job=2|period=200|deadline=155|nodes=1|kind=subtask|tag=0|ticks=87|after=-|\
          |job=3|period=576|deadline=576|nodes=1|kind=subtask|tag=0|ticks=51|after=-|\
          |job=9|period=576|deadline=576|nodes=1|kind=subtask|tag=0|ticks=50|after=-|",
        "answer=0|job=1|choice=0|node=0,0,0,477|answer=0|job=2|choice=0|node=0,0,0,155|\
         answer=10,0|answer=0|job=9|choice=0|node=0,0,0,576|",
    ),
    (
        "5,426 ticks are the first that are too few, and then a job of a tick less",
        b"engines=1|tag=0|marks=011|\
          |job=1|period=288|deadline=234|nodes=1|kind=subtask|tag=0|ticks=88|after=-|\
          |job=2|period=160|deadline=146|nodes=1|kind=subtask|tag=0|ticks=27|after=-|\
          |job=3|period=600|deadline=600|nodes=1|kind=subtask|tag=0|ticks=115|after=-|\
          |job=9|period=600|deadline=600|nodes=1|kind=subtask|tag=0|ticks=114|after=-|",
        "answer=0|job=1|choice=0|node=0,0,0,234|answer=0|job=2|choice=0|node=0,0,0,146|\
         answer=10,0|answer=0|job=9|choice=0|node=0,0,0,600|",
    ),
    (
        "4,808 ticks are the first that are too few, and then a job of a tick less",
        b"engines=1|tag=0|marks=11111110|\
          |job=1|period=180|deadline=128|nodes=1|kind=subtask|tag=0|ticks=64|after=-|\
          |job=2|period=600|deadline=600|nodes=1|kind=subtask|tag=0|ticks=147|after=-|\
          |job=3|period=320|deadline=320|nodes=1|kind=subtask|tag=0|ticks=87|after=-|\
          |job=9|period=320|deadline=320|nodes=1|kind=subtask|tag=0|ticks=86|after=-|",
        "answer=0|job=1|choice=0|node=0,0,0,128|answer=0|job=2|choice=0|node=0,0,0,600|\
         answer=10,0|answer=0|job=9|choice=0|node=0,0,0,320|",
    ),
    (
        "4,236 ticks are the first that are too few, and then a job of a tick less",
        b"engines=1|tag=0|marks=10010|\
          |job=1|period=64|deadline=64|nodes=1|kind=subtask|tag=0|ticks=10|after=-|\
          |job=2|period=600|deadline=600|nodes=1|kind=subtask|tag=0|ticks=73|after=-|\
          |job=3|period=288|deadline=204|nodes=1|kind=subtask|tag=0|ticks=35|after=-|\
          |job=9|period=288|deadline=204|nodes=1|kind=subtask|tag=0|ticks=34|after=-|",
        "answer=0|job=1|choice=0|node=0,0,0,64|answer=0|job=2|choice=0|node=0,0,0,600|\
         answer=10,0|answer=0|job=9|choice=0|node=0,0,0,204|",
    ),
    (
        "3,200 ticks are the first that are too few, and then a job of a tick less",
        b"engines=1|tag=0|marks=1|\
          |job=1|period=400|deadline=400|nodes=1|kind=subtask|tag=0|ticks=230|after=-|\
          |job=2|period=360|deadline=320|nodes=1|kind=subtask|tag=0|ticks=153|after=-|\
          |job=9|period=360|deadline=320|nodes=1|kind=subtask|tag=0|ticks=152|after=-|",
        "answer=0|job=1|choice=0|node=0,0,0,400|answer=10,0|answer=10,0|",
    ),
];
