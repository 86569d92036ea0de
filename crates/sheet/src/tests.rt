//! The lines of a sheet, and the largest ones.
use crate::lines::{LINE, NodeLine, TITLE, Title};
use crate::sheet::Short;
use std::test::Fail;
use window::layout::Window;

#[test]
fn titles(rt: HostRuntime) {
    let title = Title { job: 7, choice: 1 };
    assert_eq!(rt; title.text().as_str(), "job=7\nchoice=1\n");
    let most = Title {
        job: u32::MAX,
        choice: u32::MAX,
    };
    assert_eq!(rt; most.text().len(), TITLE);
}

#[test]
fn node_lines(rt: HostRuntime) {
    let window = Window {
        offset: 222,
        deadline: 888,
    };
    let line = NodeLine {
        node: 3,
        engine: 0,
        window,
    };
    assert_eq!(rt; line.text().as_str(), "node=3,0,222,888\n");
    let most = NodeLine {
        node: usize::MAX,
        engine: usize::MAX,
        window: Window {
            offset: u32::MAX,
            deadline: u32::MAX,
        },
    };
    assert_eq!(rt; most.text().len(), LINE);
}

#[test]
fn too_short(rt: HostRuntime) -> Result<(), Fail> {
    assert_eq!(rt;
        Short.to_string(rt.alloc())?.as_str(),
        "the buffer is too short for the sheet"
    );
    Ok(())
}
