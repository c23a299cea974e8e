//! Two intervals, 36 bytes of code and 3 of data, placed by texts and by default.

ghost use Rattle.std.specs.Prelude.{◌≡◌, IfOk, replicate};
ghost use Rattle.sym_expr.specs.Shapes.{IsShape};

use gr_base::{End, Seq};
use layout_plan::{
    LayoutFault, Shape, ShapeSpot, Spot, check_layout, default_layout, print_layout, read_layout,
};
use std::alloc::{AllocError, Global};
use std::test::Fail;
use uuid::Uuid;

fn code() -> Uuid
    ensures { result ≡ replicate 16 4 }
{
    Uuid::from_bytes([4; 16])
}

fn data() -> Uuid
    ensures { result ≡ replicate 16 7 }
{
    Uuid::from_bytes([7; 16])
}

fn hello(alloc: Global) -> Result<Shape, AllocError>
    ensures { IfOk result IsShape }
{
    let spots = [
        ShapeSpot {
            interval: code(),
            size: 36,
            align: 4,
            residue: None,
        },
        ShapeSpot {
            interval: data(),
            size: 3,
            align: 1,
            residue: None,
        },
    ];
    Ok(Shape {
        spots: Seq::from_slice(alloc, &spots)?,
    })
}

/// What is said of a layout text for the two intervals.
fn fault_of(alloc: Global, text: &[u8]) -> Result<Option<LayoutFault>, AllocError> {
    let shape = hello(alloc)?;
    match read_layout(alloc, text).and_then(|layout| check_layout(alloc, &layout, &shape)) {
        Ok(()) => Ok(None),
        Err(End::Fault(fault)) => Ok(Some(fault)),
        Err(End::Memory) => Err(AllocError),
    }
}

#[test]
fn data_may_begin_where_code_ends(rt: HostRuntime) -> Result<(), Fail> {
    let behind =
        b"place 04040404-0404-0404-0404-040404040404 0x1000\nplace 07070707-0707-0707-0707-070707070707 0x1024\nstack 0x10000 0x1000\n";
    assert_eq!(rt; fault_of(rt.alloc(), behind)?, None);
    let on_last_byte =
        b"place 04040404-0404-0404-0404-040404040404 0x1000\nplace 07070707-0707-0707-0707-070707070707 0x1023\nstack 0x10000 0x1000\n";
    let fault = LayoutFault::Overlap(Spot::Interval(code()), Spot::Interval(data()));
    assert_eq!(rt; fault_of(rt.alloc(), on_last_byte)?, Some(fault));
    Ok(())
}

#[test]
fn an_interval_without_a_line_is_missing(rt: HostRuntime) -> Result<(), Fail> {
    let text = b"stack 65536 4096 // decimal\n place 04040404-0404-0404-0404-040404040404 4096";
    assert_eq!(rt;
        fault_of(rt.alloc(), text)?,
        Some(LayoutFault::Missing(data()))
    );
    Ok(())
}

#[test]
fn lines_count_from_one(rt: HostRuntime) -> Result<(), Fail> {
    assert_eq!(rt; fault_of(rt.alloc(), b"")?, Some(LayoutFault::Line(1)));
    assert_eq!(rt;
        fault_of(rt.alloc(), b"stack 0x10000 0x1000\n\n")?,
        Some(LayoutFault::Line(2))
    );
    assert_eq!(rt;
        fault_of(rt.alloc(), b"stack 0x10000 0x1000\nstack 0x10000 0x1000")?,
        Some(LayoutFault::Line(2))
    );
    assert_eq!(rt;
        fault_of(rt.alloc(), b"stack 0x10000 8\nstacks")?,
        Some(LayoutFault::Line(1))
    );
    Ok(())
}

#[test]
fn the_default_layout_is_printed(rt: HostRuntime) -> Result<(), Fail> {
    let alloc = rt.alloc();
    let layout = default_layout(alloc, &hello(alloc)?)?;
    let text = print_layout(alloc, &layout)?;
    let wanted =
        b"place 04040404-0404-0404-0404-040404040404 0x10000\nplace 07070707-0707-0707-0707-070707070707 0x10024\nstack 0x11030 0x10000\n";
    assert_eq!(rt; text.as_slice(), wanted.as_slice());
    Ok(())
}
