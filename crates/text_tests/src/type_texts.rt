use aux_types::{TypeFault, parse_type, print_type};
use gr_base::End;
use std::alloc::{AllocError, Global};
use std::test::Fail;

/// A text of `count` pieces, then a tail.
fn repeated(alloc: Global, piece: &str, count: u8, tail: &str) -> Result<String, AllocError> {
    let mut text = String::new(alloc);
    for _ in 0..count {
        text.push_str(piece)?;
    }
    text.push_str(tail)?;
    Ok(text)
}

/// Whether a text is parsed, and the type's name is that text.
fn is_printed_back(alloc: Global, text: &str) -> Result<bool, AllocError> {
    match parse_type(alloc, text) {
        Ok(of) => Ok(print_type(alloc, &of)?.as_str() == text),
        Err(_) => Ok(false),
    }
}

fn is_refused(alloc: Global, text: &str, fault: TypeFault) -> bool {
    match parse_type(alloc, text) {
        Err(End::Fault(found)) => found == fault,
        _ => false,
    }
}

#[test]
fn each_name_is_parsed_and_printed_back(rt: HostRuntime) -> Result<(), Fail> {
    let texts = [
        "tuple<string,bool,UUID,Addr,Offset,int8_t,int16_t,int32_t,int64_t,float,double>",
        "variant<uint8_t,uint16_t,uint32_t,uint64_t,set<UUID>,sequence<string>>",
        "mapping<UUID,set<UUID>>",
        "mapping<Offset,string>",
    ];
    for text in texts {
        assert!(rt; is_printed_back(rt.alloc(), text)?, "{text}");
    }
    Ok(())
}

#[test]
fn a_fault_stands_where_another_thing_was_expected(rt: HostRuntime) {
    let rows = [
        ("", TypeFault::NotAType(0)),
        ("uint8_t_", TypeFault::NotAType(0)),
        ("bool ", TypeFault::NotAType(4)),
        ("set(bool)", TypeFault::NotAType(3)),
        ("tuple<>", TypeFault::NotAType(6)),
        ("mapping<string>", TypeFault::NotAType(14)),
        ("sequence<bool", TypeFault::NotAType(13)),
        ("set<uint8_t>>", TypeFault::NotAType(12)),
    ];
    for (text, fault) in rows {
        assert!(rt; is_refused(rt.alloc(), text, fault), "{text}");
    }
}

#[test]
fn brackets_nest_32_deep(rt: HostRuntime) -> Result<(), Fail> {
    let alloc = rt.alloc();
    let inner = repeated(alloc, ">", 32, "")?;
    let mut deepest = repeated(alloc, "sequence<", 32, "bool")?;
    deepest.push_str(inner.as_str())?;
    assert!(rt; is_printed_back(alloc, deepest.as_str())?);

    let sets = repeated(alloc, "set<", 33, "")?;
    assert!(rt; is_refused(alloc, sets.as_str(), TypeFault::Deep(131)));
    let no_container = repeated(alloc, "set<", 32, "bool<")?;
    assert!(rt; is_refused(alloc, no_container.as_str(), TypeFault::NotAType(132)));
    Ok(())
}
