//! Worked canvases: how a page catches up with another one, by its frame.
use press_bits::{DotRow, Mode, Region};
use press_canvas::Canvas;
use press_page::{Extent, Orientation};
use std::alloc::Global;
use std::process::Abort;
use std::test::Fail;

const TRANSPARENT: Mode = Mode {
    source_opaque: false,
    pattern_opaque: false,
};

/// A page of 20 by 30 dots, of which eight dots of line 2 of the frame are black, from dot 3 on.
fn marked(alloc: Global, orientation: Orientation) -> Result<Canvas, Fail> {
    let size = Extent {
        width: 20,
        height: 30,
    };
    let mut page = Canvas::blank(alloc, orientation, size)?;
    let black = DotRow::black();
    page.frame()
        .bitmap
        .paint_row(3, 2, black, black, TRANSPARENT)?;
    Ok(page)
}

/// Where a white page differs from that one; it differs nowhere when it has caught up.
fn changed(
    rt: &impl Abort,
    alloc: Global,
    orientation: Orientation,
) -> Result<Option<Region>, Fail> {
    let after = marked(alloc, orientation)?;
    let mut page = after.white(alloc)?;
    let region = page.catch_up(alloc, &after)?;
    assert!(rt;
        page.catch_up_between(alloc, &after, orientation, 0, 30)?
            .is_none()
    );
    Ok(region)
}

#[test]
fn a_page_catches_up_as_its_frame_lies(rt: HostRuntime) -> Result<(), Fail> {
    let regions = [
        (Orientation::Portrait, (2, 3, 0, 2)),
        (Orientation::Landscape, (19, 27, 0, 1)),
        (Orientation::ReversePortrait, (27, 28, 1, 3)),
        (Orientation::ReverseLandscape, (3, 11, 2, 3)),
    ];
    for (orientation, (top, bottom, left, right)) in regions {
        let region = Region {
            top,
            bottom,
            left,
            right,
        };
        assert_eq!(rt; changed(&rt, rt.alloc(), orientation)?, Some(region));
    }
    Ok(())
}

#[test]
fn a_canvas_has_the_dots_of_its_page(rt: HostRuntime) -> Result<(), Fail> {
    let page = marked(rt.alloc(), Orientation::Landscape)?;
    let size = page.extent();
    assert_eq!(rt; (size.width, size.height), (20, 30));
    assert!(rt; page.get(2, 19) && page.get(2, 26));
    assert!(rt; !page.get(2, 18) && !page.get(2, 27) && !page.get(3, 19) && !page.get(20, 19));
    assert_eq!(rt;
        page.dots(0, 26),
        [false, false, true, false, false, false, false, false]
    );
    assert_eq!(rt; page.dots(0, 27), [false; 8]);
    Ok(())
}
