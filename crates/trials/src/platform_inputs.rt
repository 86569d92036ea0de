//! Inputs whose platform text is at fault, or just right.
use crate::inputs::Input;

pub const PLATFORM_INPUTS: [Input; 47] = [
    ("no bytes", b"", "answer=1,0|"),
    ("a single byte 10", b"|", "answer=1,0|"),
    (
        "an empty text before the platform",
        b"|engines=1|tag=0|marks=1|",
        "answer=1,0|",
    ),
    (
        "a job in the place of the platform",
        b"job=7|period=100|deadline=100|nodes=1|kind=subtask|tag=0|ticks=1|after=-|",
        "answer=2,1|",
    ),
    (
        "the count of engines is missing",
        b"tag=0|marks=1|",
        "answer=2,1|",
    ),
    (
        "the key of engines in capitals",
        b"ENGINES=1|tag=0|marks=1|",
        "answer=2,1|",
    ),
    (
        "a space before the key",
        b" engines=1|tag=0|marks=1|",
        "answer=2,1|",
    ),
    (
        "a space after the key",
        b"engines =1|tag=0|marks=1|",
        "answer=2,1|",
    ),
    (
        "a colon in the place of the equals sign",
        b"engines:1|tag=0|marks=1|",
        "answer=2,1|",
    ),
    (
        "the tag of engine 0 is missing",
        b"engines=1|marks=1|",
        "answer=2,2|",
    ),
    (
        "marks before the tag",
        b"engines=1|marks=1|tag=0|",
        "answer=2,2|",
    ),
    (
        "the marks of engine 0 are missing",
        b"engines=1|tag=0|",
        "answer=2,3|",
    ),
    (
        "the last marks end without a byte 10",
        b"engines=1|tag=0|marks=1",
        "answer=2,3|",
    ),
    (
        "a line after the last engine",
        b"engines=1|tag=0|marks=1|tag=0|",
        "answer=2,4|",
    ),
    (
        "a byte after the last engine",
        b"engines=1|tag=0|marks=1|1",
        "answer=2,4|",
    ),
    (
        "fewer engines than are said",
        b"engines=3|tag=0|marks=1|tag=0|marks=1|",
        "answer=2,6|",
    ),
    (
        "an empty line among the engines",
        b"engines=2|tag=0|marks=1||tag=1|marks=1|",
        "answer=2,4|",
    ),
    ("no count", b"engines=|tag=0|marks=1|", "answer=3,1|"),
    (
        "a count with a sign",
        b"engines=+1|tag=0|marks=1|",
        "answer=3,1|",
    ),
    (
        "a count with a leading zero",
        b"engines=01|tag=0|marks=1|",
        "answer=3,1|",
    ),
    (
        "a count of ten digits",
        b"engines=1000000000|tag=0|marks=1|",
        "answer=3,1|",
    ),
    (
        "a count of nine digits",
        b"engines=999999999|tag=0|marks=1|",
        "answer=4,1|",
    ),
    ("no engines", b"engines=0|", "answer=4,1|"),
    (
        "seventeen engines",
        b"engines=17|tag=0|marks=1|tag=0|marks=1|tag=0|marks=1|tag=0|marks=1|tag=0|marks=1|\
          tag=0|marks=1|tag=0|marks=1|tag=0|marks=1|tag=0|marks=1|tag=0|marks=1|tag=0|marks=1|\
          tag=0|marks=1|tag=0|marks=1|tag=0|marks=1|tag=0|marks=1|tag=0|marks=1|tag=0|marks=1|",
        "answer=4,1|",
    ),
    (
        "sixteen engines",
        b"engines=16|tag=0|marks=1|tag=0|marks=1|tag=0|marks=1|tag=0|marks=1|tag=0|marks=1|\
          tag=0|marks=1|tag=0|marks=1|tag=0|marks=1|tag=0|marks=1|tag=0|marks=1|tag=0|marks=1|\
          tag=0|marks=1|tag=0|marks=1|tag=0|marks=1|tag=0|marks=1|tag=0|marks=1|\
          |job=1|period=100|deadline=100|nodes=1|kind=subtask|tag=0|ticks=100|after=-|",
        "answer=0|job=1|choice=0|node=0,0,0,100|",
    ),
    (
        "a tag in letters",
        b"engines=1|tag=a|marks=1|",
        "answer=3,2|",
    ),
    (
        "a tag with a leading zero",
        b"engines=1|tag=00|marks=1|",
        "answer=3,2|",
    ),
    ("tag 8", b"engines=1|tag=8|marks=1|", "answer=4,2|"),
    (
        "tag 8 on engine 1, after marks that are right",
        b"engines=2|tag=7|marks=1|tag=8|marks=1|",
        "answer=4,4|",
    ),
    ("no marks", b"engines=1|tag=0|marks=|", "answer=3,3|"),
    (
        "a dash for marks",
        b"engines=1|tag=0|marks=-|",
        "answer=3,3|",
    ),
    (
        "a 2 among the marks",
        b"engines=1|tag=0|marks=10121|",
        "answer=3,3|",
    ),
    (
        "a space among the marks",
        b"engines=1|tag=0|marks=1 0|",
        "answer=3,3|",
    ),
    (
        "a byte 13 after the marks",
        b"engines=1|tag=0|marks=1\r|",
        "answer=3,3|",
    ),
    (
        "a byte 255 among the marks",
        b"engines=1|tag=0|marks=1\xff|",
        "answer=3,3|",
    ),
    (
        "a single mark that does not serve",
        b"engines=1|tag=0|marks=0|",
        "answer=4,3|",
    ),
    (
        "240 marks that do not serve",
        b"engines=1|tag=0|\
          marks=000000000000000000000000000000000000000000000000000000000000000000000000000000000000000000000000000000000000000000000000000000000000000000000000000000000000000000000000000000000000000000000000000000000000000000000000000000000000000000000000|",
        "answer=4,3|",
    ),
    (
        "seven marks",
        b"engines=1|tag=0|marks=1111111|",
        "answer=4,3|",
    ),
    (
        "seven marks, of which one is malformed",
        b"engines=1|tag=0|marks=111111x|",
        "answer=3,3|",
    ),
    (
        "241 marks",
        b"engines=1|tag=0|\
          marks=1111111111111111111111111111111111111111111111111111111111111111111111111111111111111111111111111111111111111111111111111111111111111111111111111111111111111111111111111111111111111111111111111111111111111111111111111111111111111111111111111|",
        "answer=4,3|",
    ),
    (
        "288 marks, which divide a belt cycle",
        b"engines=1|tag=0|\
          marks=111111111111111111111111111111111111111111111111111111111111111111111111111111111111111111111111111111111111111111111111111111111111111111111111111111111111111111111111111111111111111111111111111111111111111111111111111111111111111111111111111111111111111111111111111111111111111111111111|",
        "answer=4,3|",
    ),
    (
        "225 marks",
        b"engines=1|tag=0|\
          marks=111111111111111111111111111111111111111111111111111111111111111111111111111111111111111111111111111111111111111111111111111111111111111111111111111111111111111111111111111111111111111111111111111111111111111111111111111111110|\
          |job=1|period=225|deadline=225|nodes=1|kind=subtask|tag=0|ticks=224|after=-|\
          |job=2|period=225|deadline=225|nodes=1|kind=subtask|tag=0|ticks=1|after=-|",
        "answer=0|job=1|choice=0|node=0,0,0,225|answer=10,0|",
    ),
    (
        "the last of sixteen engines never serves",
        b"engines=16|tag=0|marks=1|tag=0|marks=1|tag=0|marks=1|tag=0|marks=1|tag=0|marks=1|\
          tag=0|marks=1|tag=0|marks=1|tag=0|marks=1|tag=0|marks=1|tag=0|marks=1|tag=0|marks=1|\
          tag=0|marks=1|tag=0|marks=1|tag=0|marks=1|tag=0|marks=1|tag=0|marks=00|",
        "answer=4,33|",
    ),
    (
        "a range fault in line 2 comes before a form fault in line 3",
        b"engines=1|tag=9|marks=x|",
        "answer=4,2|",
    ),
    (
        "a form fault in line 1 comes before a missing line",
        b"engines=x|",
        "answer=3,1|",
    ),
    (
        "jobs after a platform at fault",
        b"engines=1|tag=0|marks=1111111|\
          |job=1|period=100|deadline=100|nodes=1|kind=subtask|tag=0|ticks=1|after=-|||x",
        "answer=4,3|",
    ),
    (
        "eleven marks",
        b"engines=1|tag=0|marks=11111111111|",
        "answer=4,3|",
    ),
];
