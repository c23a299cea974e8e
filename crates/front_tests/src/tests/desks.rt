use super::{SMALLEST, bytes_of, expect_answer};
use gr_base::MemDesk;
use std::test::Fail;

#[test]
fn a_refused_call_is_answered_by_its_kind(rt: HostRuntime) -> Result<(), Fail> {
    let alloc = rt.alloc();
    let file = bytes_of(alloc, SMALLEST)?;
    for (refused, note, status, left) in [
        (2, "read fault: in", 3, None),
        (6, "write fault", 4, Some(16)),
        (9, "done bytes=28", 0, Some(28)),
    ] {
        let mut desk = MemDesk::new(alloc, 16, &[refused])?;
        desk.put("a", file.as_slice())?;
        expect_answer(&rt, alloc, &mut desk, "recode in=a out=b", note, status)?;
        assert!(rt;
            desk.get("b") == left.and_then(|count| file.get(..count)),
            "at {refused}"
        );
        assert!(rt; desk.get("a") == Some(file.as_slice()), "at {refused}");
    }
    Ok(())
}
