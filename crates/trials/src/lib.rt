//! Tables of texts and of whole inputs, and the answers that they get. Tests only.
#![tactic(auto)]

#[cfg(test)]
mod board_inputs;
#[cfg(test)]
mod branch_inputs;
#[cfg(test)]
mod choice_inputs;
#[cfg(test)]
mod drawn_inputs;
#[cfg(test)]
mod engine_tests;
#[cfg(test)]
mod fork_inputs;
#[cfg(test)]
mod graph_cases;
#[cfg(test)]
mod inputs;
#[cfg(test)]
mod job_cases;
#[cfg(test)]
mod line_inputs;
#[cfg(test)]
mod long_inputs;
#[cfg(test)]
mod placing_inputs;
#[cfg(test)]
mod platform_cases;
#[cfg(test)]
mod platform_inputs;
#[cfg(test)]
mod run_tests;
#[cfg(test)]
mod seat_cases;
#[cfg(test)]
mod value_inputs;

#[cfg(test)]
mod tests {
    use crate::graph_cases::{JOB_FORKS, JOBS};
    use crate::job_cases::{JOB_FORMS, JOB_LINES, JOB_RANGES};
    use crate::platform_cases::PLATFORMS;
    use crate::seat_cases::SEATS;
    use listing::listing::listing;
    use slack::even::Even;
    use slack::proportional::Proportional;
    use slack::rule::SlackRule;
    use std::process::Abort;
    use std::test::Fail;
    use text::fault::Fault;
    use text::job_text::read_job;
    use text::platform_text::read_platform;
    use window::layout::Layout;

    // A text, the number of the first question that it fails, and the place; 0 and 0 for one that is read.
    pub type Case = (&'static [u8], u32, u32);

    // The number of the question that a text failed, and the place; 0 and 0 where it was read.
    fn answer_to<T: Copy>(read: Result<T, Fault>) -> (u32, u32) {
        match read {
            Ok(_) => (0, 0),
            Err(fault) => (fault.number(), fault.place()),
        }
    }

    // What fails says its place in the table.
    fn try_jobs(rt: &impl Abort, cases: &[Case]) {
        for (i, (text, number, place)) in cases.iter().enumerate() {
            assert_eq!(rt; answer_to(read_job(text)), (*number, *place), "{}", i);
        }
    }

    // Lays the first bytes over the front, and ends the last line.
    fn lay(bytes: &mut [u8], front: &[u8]) {
        for (byte, laid) in bytes.iter_mut().zip(front) {
            *byte = *laid;
        }
        if let [.., last] = bytes {
            *last = 10;
        }
    }

    #[test]
    fn jobs_by_size(rt: HostRuntime) {
        assert_eq!(rt; answer_to(read_job(b"")), (1, 0));
        // a number of 4,091 digits is not well formed
        let mut most = [b'1'; 4096];
        lay(&mut most, b"job=");
        assert_eq!(rt; answer_to(read_job(&most)), (3, 1));
        let mut more = [b'1'; 4097];
        lay(&mut more, b"job=");
        assert_eq!(rt; answer_to(read_job(&more)), (1, 0));
        // a job, and text after it up to the limit and past it
        let mut most = [b'x'; 4096];
        lay(
            &mut most,
            b"job=7\nperiod=100\ndeadline=100\nnodes=1\nkind=subtask\ntag=0\nticks=1\nafter=-\n",
        );
        assert_eq!(rt; answer_to(read_job(&most)), (2, 9));
        let mut more = [b'x'; 4097];
        lay(
            &mut more,
            b"job=7\nperiod=100\ndeadline=100\nnodes=1\nkind=subtask\ntag=0\nticks=1\nafter=-\n",
        );
        assert_eq!(rt; answer_to(read_job(&more)), (1, 0));
    }

    #[test]
    fn jobs_by_line(rt: HostRuntime) {
        try_jobs(&rt, &JOB_LINES);
    }

    #[test]
    fn jobs_by_form(rt: HostRuntime) {
        try_jobs(&rt, &JOB_FORMS);
    }

    #[test]
    fn jobs_by_range(rt: HostRuntime) {
        try_jobs(&rt, &JOB_RANGES);
    }

    #[test]
    fn jobs_by_fork(rt: HostRuntime) {
        try_jobs(&rt, &JOB_FORKS);
    }

    #[test]
    fn jobs_read(rt: HostRuntime) {
        try_jobs(&rt, &JOBS);
    }

    #[test]
    fn platforms_by_line(rt: HostRuntime) {
        for (i, (text, number, place)) in PLATFORMS.iter().enumerate() {
            assert_eq!(rt; answer_to(read_platform(text)), (*number, *place), "{}", i);
        }
    }

    // Marks of 240 and of 241, of 288, which divides a belt cycle and is too long, and up to the text's limit and past it.
    #[test]
    fn platforms_by_marks(rt: HostRuntime) {
        let mut longest = [b'1'; 263];
        lay(&mut longest, b"engines=1\ntag=0\nmarks=");
        assert_eq!(rt; answer_to(read_platform(&longest)), (0, 0));
        let mut longer = [b'1'; 264];
        lay(&mut longer, b"engines=1\ntag=0\nmarks=");
        assert_eq!(rt; answer_to(read_platform(&longer)), (4, 3));
        let mut dividing = [b'1'; 311];
        lay(&mut dividing, b"engines=1\ntag=0\nmarks=");
        assert_eq!(rt; answer_to(read_platform(&dividing)), (4, 3));
        let mut most = [b'1'; 4096];
        lay(&mut most, b"engines=1\ntag=0\nmarks=");
        assert_eq!(rt; answer_to(read_platform(&most)), (4, 3));
        let mut more = [b'1'; 4097];
        lay(&mut more, b"engines=1\ntag=0\nmarks=");
        assert_eq!(rt; answer_to(read_platform(&more)), (1, 0));
    }

    #[test]
    fn worked_job(rt: HostRuntime) -> Result<(), Fail> {
        let [.., (text, _, _)] = JOBS;
        let job = read_job(text)?;
        assert_eq!(rt; job.number, 7);
        assert_eq!(rt; job.period, 1200);
        assert_eq!(rt; job.deadline, 1000);
        assert_eq!(rt; job.nodes.len(), 5);
        Ok(())
    }

    #[test]
    fn seats(rt: HostRuntime) -> Result<(), Fail> {
        for (i, (input, expected)) in SEATS.iter().enumerate() {
            let lines = listing(rt.alloc(), input)?;
            assert_eq!(rt; lines.as_str(), *expected, "{}", i);
        }
        Ok(())
    }

    // The local deadlines of the worked graph's sub-tasks under its second choice.
    fn worked_deadlines<R: SlackRule>(rule: &R) -> Result<(u32, u32, u32), Fail> {
        let [.., (text, _, _)] = JOBS;
        let job = read_job(text)?;
        let windows = Layout::of(&job, 1, rule).windows;
        Ok((
            windows[0].deadline,
            windows[3].deadline,
            windows[4].deadline,
        ))
    }

    #[test]
    fn worked_windows(rt: HostRuntime) -> Result<(), Fail> {
        assert_eq!(rt; worked_deadlines(&Proportional)?, (222, 888, 1000));
        assert_eq!(rt; worked_deadlines(&Even)?, (233, 866, 1000));
        Ok(())
    }
}
