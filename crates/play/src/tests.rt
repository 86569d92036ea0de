//! Histories, and all that is printed of them.
use crate::play::play;
use std::test::Fail;

const HISTORIES: [(&[u8], &str); 12] = [
    // in turn, by the even rule, on engines that serve every tick although their marks do not
    (
        b"board even rota whole\nload 1\nload 4\nsheet 4 99\nload 2\nunload 4\nload 2\nsheet 1 99\nsheet 2 99\nload 3\nstart\narrive 1 0\narrive 2 0\nnext 0\nnext 1\nnext 2\ntick 7 0\ntick 7 0\narrive 2 0\ntick 7 0\ntick 4 0\nlate\nnext 1\nstop\n\nengines=3\ntag=0\nmarks=10\ntag=0\nmarks=10\ntag=1\nmarks=1\n\njob=1\nperiod=6\ndeadline=6\nnodes=2\nkind=subtask\ntag=0\nticks=1\nafter=-\nkind=subtask\ntag=1\nticks=2\nafter=0\n\njob=2\nperiod=2\ndeadline=2\nnodes=1\nkind=subtask\ntag=0\nticks=2\nafter=-\n\njob=3\nperiod=2\ndeadline=2\nnodes=1\nkind=subtask\ntag=0\nticks=2\nafter=-\n\njob=4\nperiod=6\ndeadline=6\nnodes=1\nkind=subtask\ntag=0\nticks=1\nafter=-\n",
        "answer=0\nanswer=0\nanswer=0\nlength=28\njob=4\nchoice=0\nnode=0,1,0,6\nanswer=10,0\nanswer=0\nanswer=0\nanswer=0\nlength=41\njob=1\nchoice=0\nnode=0,0,0,2\nnode=1,2,2,6\nanswer=0\nlength=28\njob=2\nchoice=0\nnode=0,1,0,2\nanswer=10,0\nanswer=0\nanswer=0\nanswer=0\nnext=1,0\nnext=2,0\nnext=-\nlate=0 ran=0:1.0 1:2.0\nlate=0 ran=1:2.0\nanswer=0\nlate=0 ran=1:2.0 2:1.1\nlate=1 ran=2:1.1\nlate=1\nnext=-\nanswer=0\n",
    ),
    // most load first, a job that no choice makes possible, and a text at fault
    (
        b"board even fullest calendar\nload 1\nload 2\nsheet 2 99\nload 3\nsheet 3 99\nload 4\nsheet 4 99\nload 5\nload 6\nstart\nstop\n\nengines=2\ntag=0\nmarks=1\ntag=0\nmarks=1\n\njob=1\nperiod=4\ndeadline=4\nnodes=1\nkind=subtask\ntag=0\nticks=1\nafter=-\n\njob=2\nperiod=4\ndeadline=4\nnodes=1\nkind=subtask\ntag=0\nticks=1\nafter=-\n\njob=3\nperiod=2\ndeadline=2\nnodes=1\nkind=subtask\ntag=0\nticks=2\nafter=-\n\njob=4\nperiod=4\ndeadline=4\nnodes=1\nkind=subtask\ntag=0\nticks=1\nafter=-\n\njob=5\nperiod=5\ndeadline=5\nnodes=2\nkind=subtask\ntag=0\nticks=3\nafter=-\nkind=subtask\ntag=0\nticks=3\nafter=0\n\njob=06\n",
        "answer=0\nanswer=0\nanswer=0\nlength=28\njob=2\nchoice=0\nnode=0,0,0,4\nanswer=0\nanswer=0\nlength=28\njob=3\nchoice=0\nnode=0,1,0,2\nanswer=0\nanswer=0\nlength=28\njob=4\nchoice=0\nnode=0,0,0,4\nanswer=9,0\nanswer=3,1\nanswer=0\nanswer=0\n",
    ),
    // in turn by the proportional rule, up to a line with a number too many
    (
        b"board proportional rota whole\nload 1\nload 2\nsheet 2 28\nlate 0\nload 1\n\nengines=2\ntag=0\nmarks=10\ntag=0\nmarks=10\n\njob=1\nperiod=4\ndeadline=4\nnodes=1\nkind=subtask\ntag=0\nticks=3\nafter=-\n\njob=2\nperiod=4\ndeadline=4\nnodes=1\nkind=subtask\ntag=0\nticks=1\nafter=-\n",
        "answer=0\nanswer=0\nanswer=0\nlength=28\njob=2\nchoice=0\nnode=0,1,0,4\nline 5 is no call\n",
    ),
    // nothing
    (b"", "line 1 is no board\n"),
    // a platform too few in the first line
    (b"board even rota\nlate\n", "line 1 is no board\n"),
    // no text is that of the platform
    (b"board even rota calendar\nlate\n", "answer=1,0\n"),
    // a platform text at fault
    (
        b"board even rota whole\nlate\n\nengines=0\n",
        "answer=4,1\n",
    ),
    // the text of the platform is that of no job
    (
        b"board even rota whole\nlate\nload 0\n\nengines=1\ntag=0\nmarks=1\n",
        "answer=-\nline 3 is no call\n",
    ),
    // a text that is not there
    (
        b"board even rota whole\nload 1\nlate\n\nengines=1\ntag=0\nmarks=1\n",
        "line 2 is no call\n",
    ),
    // a mask of 17 bits
    (
        b"board even rota whole\nstart\ntick 65535 0\ntick 65536 0\n\nengines=1\ntag=0\nmarks=1\n",
        "answer=0\nanswer=14,0\nline 4 is no call\n",
    ),
    // a space at the end
    (
        b"board even rota whole\nstart \n\nengines=1\ntag=0\nmarks=1\n",
        "line 2 is no call\n",
    ),
    // a leading zero
    (
        b"board even rota whole\nstart\nnext 00\n\nengines=1\ntag=0\nmarks=1\n",
        "answer=0\nline 3 is no call\n",
    ),
];

#[test]
fn histories(rt: HostRuntime) -> Result<(), Fail> {
    for (i, (input, expected)) in HISTORIES.iter().enumerate() {
        let answers = play(rt.alloc(), input)?;
        assert_eq!(rt; answers.as_str(), *expected, "{}", i);
    }
    Ok(())
}
