use super::expect_answer;
use gr_base::HonestDesk;
use std::test::Fail;

#[test]
fn writes_a_program_that_adds_constants(rt: HostRuntime) -> Result<(), Fail> {
    let alloc = rt.alloc();
    let mut desk = HonestDesk::new(alloc)?;
    for (line, note, status) in [
        (
            "demo seed=1 blocks=3 out=d",
            "blocks=3 bytes=36 steps=9 exit 24",
            0,
        ),
        ("recode in=d out=e", "done bytes=542", 0),
        (
            "check in=d",
            "ok sections=1 intervals=1 blocks=5 symbols=4 exprs=3 edges=0 tables=0 opaque=0",
            0,
        ),
        ("link in=d out=i", "done bytes=92", 0),
        ("run in=i out=o", "steps=9 exit 24", 0),
        ("layout in=d out=l", "done bytes=73", 0),
        ("link in=d layout=l out=j", "done bytes=92", 0),
        ("link in=d layout=d out=f", "layout 1 1", 11),
        ("demo seed=1 blocks=0 out=f", "usage: word 2", 2),
        ("demo seed=1 blocks=100001 out=f", "usage: word 2", 2),
        ("demo seed=4294967296 blocks=1 out=f", "usage: word 1", 2),
        ("demo blocks=1 out=f", "usage: word 3", 2),
        ("demo in=d seed=1 blocks=1 out=f", "usage: word 1", 2),
    ] {
        expect_answer(&rt, alloc, &mut desk, line, note, status)?;
    }
    assert!(rt;
        desk.get("e") == desk.get("d"),
        "what is written is canonical"
    );
    assert!(rt;
        desk.get("i") == desk.get("j"),
        "the default layout is the one that is written"
    );
    assert!(rt; desk.get("f").is_none());
    Ok(())
}
