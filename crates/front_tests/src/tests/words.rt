use super::expect_answer;
use gr_base::HonestDesk;
use std::test::Fail;

#[test]
fn names_the_first_word_that_breaks_the_rules(rt: HostRuntime) -> Result<(), Fail> {
    let alloc = rt.alloc();
    let mut desk = HonestDesk::new(alloc)?;
    for (line, note) in [
        ("", "usage: word 0"),
        ("--help", "usage: word 0"),
        ("recodes in=a out=b", "usage: word 0"),
        ("recode", "usage: word 1"),
        ("recode in=a", "usage: word 2"),
        ("recode in=a in=b out=c", "usage: word 2"),
        ("recode in=a out=", "usage: word 2"),
        ("recode in=a steps=1 out=b", "usage: word 2"),
        ("recode a out=b", "usage: word 1"),
    ] {
        expect_answer(&rt, alloc, &mut desk, line, note, 2)?;
    }
    Ok(())
}

#[test]
fn a_file_name_has_at_most_4096_bytes(rt: HostRuntime) -> Result<(), Fail> {
    let alloc = rt.alloc();
    let mut desk = HonestDesk::new(alloc)?;
    for (length, note, status) in [(4096, "read fault: in", 3), (4097, "usage: word 1", 2)] {
        let mut line = String::from_str(alloc, "recode in=")?;
        for _ in 0..length {
            line.push('a')?;
        }
        line.push_str(" out=b")?;
        expect_answer(&rt, alloc, &mut desk, line.as_str(), note, status)?;
    }
    Ok(())
}
