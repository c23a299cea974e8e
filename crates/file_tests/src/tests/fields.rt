use super::words::*;
use gr_base::Seq;
use gt_model::{
    Aux, Block, Body, Edge, Expr, ExprValue, Interval, Ir, Label, Module, Payload, Section, Symbol,
};
use gt_read::read_file;
use std::alloc::Global;
use std::test::Fail;
use uuid::Uuid;

/// A file of every message, with each field set.
const WHOLE: &str = "
    'GTIRB 000004 0a10 u01 1a9a03 0a10 u02 1206 '/bin/a 18 808004 20 fdffffffffffffffff01 2802
    3007 3a01 'a 4a2a 0a10 u09 1a04 'main 2a10 u05 4a1b 0a10 u0a 1005 1a03 'end 3001 62d301 0a10
    u03 1205 '.text 2ab201 0a10 u04 1218 1216 0a10 u05 1804 2001 1218 0804 1a14 0a10 u06 1802
    1202 0806 1a27 0800 1223 121d 08 f8ffffffffffffffff01 1210 u09 2202 0306 1a2e 0804 122a 1a28
    0802 1001 1a10 u09 2210 u0a 2001 28 8020 3006 3a06 010203040506 3203 010304 820112 0a10 u0c
    8a011d 0a01 'b 1218 0a04 'UUID 1210 u05 920110 u05 980102 2a11 0a01 'a 120c 0a06 'string
    1202 0100 3004 3a78 122c 0a10 u05 1210 u0c 2a06 0801 1001 1801 1224 0a10 u0c 1210 u05 1a10
    u05 1a10 u0c";

/// The identifier of sixteen equal bytes.
fn id(n: u8) -> Uuid {
    Uuid::from_bytes([n; 16])
}

fn whole(alloc: Global) -> Result<Ir, Fail> {
    Ok(read_file(alloc, bytes_of(alloc, WHOLE, "")?.as_slice())?)
}

fn module(ir: &Ir) -> Result<&Module, Fail> {
    Ok(ir.modules.as_slice().first().ok_or("no module")?)
}

fn section(ir: &Ir) -> Result<&Section, Fail> {
    Ok(module(ir)?.sections.as_slice().first().ok_or("no section")?)
}

fn interval(ir: &Ir) -> Result<&Interval, Fail> {
    Ok(
        section(ir)?
            .intervals
            .as_slice()
            .first()
            .ok_or("no interval")?,
    )
}

fn is_module(m: &Module) -> bool {
    let numbers = m.preferred_addr == 65536 && m.rebase_delta == -3 && m.byte_order == 2;
    let kinds = m.file_format == 2 && m.isa == 7;
    let texts = m.name.as_str() == "a" && m.binary_path.as_str() == "/bin/a";
    let ids = m.uuid == id(2)
        && m.entry == Some(id(5))
        && m.proxies.as_slice() == [id(12)].as_slice();
    numbers && kinds && texts && ids
}

fn is_table(tables: &Seq<Aux>, name: &str, type_name: &str, bytes: &[u8]) -> bool {
    match tables.as_slice() {
        [table] => {
            let texts = table.name.as_str() == name && table.type_name.as_str() == type_name;
            texts && table.bytes.as_slice() == bytes
        }
        _ => false,
    }
}

#[test]
fn an_ir_and_its_module(rt: HostRuntime) -> Result<(), Fail> {
    let ir = whole(rt.alloc())?;
    assert!(rt; ir.uuid == id(1) && ir.version == 4);
    assert!(rt; is_module(module(&ir)?));
    assert!(rt; is_table(&ir.aux, "a", "string", &[1, 0]));
    assert!(rt; is_table(&module(&ir)?.aux, "b", "UUID", &[5; 16]));
    Ok(())
}

fn is_section(s: &Section) -> bool {
    s.uuid == id(3) && s.name.as_str() == ".text" && s.flags.as_slice() == [1, 3, 4].as_slice()
}

fn is_interval(i: &Interval) -> bool {
    let numbers = i.uuid == id(4) && i.has_address && i.address == 4096 && i.size == 6;
    numbers && i.contents.as_slice() == [1, 2, 3, 4, 5, 6].as_slice()
}

#[test]
fn a_section_and_its_interval(rt: HostRuntime) -> Result<(), Fail> {
    let ir = whole(rt.alloc())?;
    assert!(rt; is_section(section(&ir)?));
    assert!(rt; is_interval(interval(&ir)?));
    Ok(())
}

#[test]
fn blocks(rt: HostRuntime) -> Result<(), Fail> {
    let ir = whole(rt.alloc())?;
    let blocks = [
        Block {
            offset: 0,
            body: Body::Code {
                uuid: id(5),
                size: 4,
                decode_mode: 1,
            },
        },
        Block {
            offset: 4,
            body: Body::Data {
                uuid: id(6),
                size: 2,
            },
        },
        Block {
            offset: 6,
            body: Body::Bare,
        },
    ];
    assert!(rt; interval(&ir)?.blocks.as_slice() == blocks.as_slice());
    Ok(())
}

fn is_expr(expr: &Expr, at: u64, value: ExprValue, flags: &[i32]) -> bool {
    expr.at == at && expr.value == value && expr.flags.as_slice() == flags
}

#[test]
fn expressions(rt: HostRuntime) -> Result<(), Fail> {
    let ir = whole(rt.alloc())?;
    let address = ExprValue::AddrConst {
        offset: -8,
        symbol: Some(id(9)),
    };
    let difference = ExprValue::AddrAddr {
        scale: 2,
        offset: 1,
        first: Some(id(9)),
        second: Some(id(10)),
    };
    let [first, second] = interval(&ir)?.exprs.as_slice() else {
        return Err("not two expressions")?;
    };
    assert!(rt; is_expr(first, 0, address, &[3, 6]));
    assert!(rt; is_expr(second, 4, difference, &[]));
    Ok(())
}

fn is_symbol(symbol: &Symbol, n: u8, name: &str, at_end: bool, payload: Payload) -> bool {
    let names = symbol.uuid == id(n) && symbol.name.as_str() == name;
    names && symbol.at_end == at_end && symbol.payload == payload
}

#[test]
fn symbols(rt: HostRuntime) -> Result<(), Fail> {
    let ir = whole(rt.alloc())?;
    let [main, end] = module(&ir)?.symbols.as_slice() else {
        return Err("not two symbols")?;
    };
    assert!(rt; is_symbol(main, 9, "main", false, Payload::Referent(id(5))));
    assert!(rt; is_symbol(end, 10, "end", true, Payload::Value(5)));
    Ok(())
}

fn is_edge(edge: &Edge, source: u8, target: u8, label: Option<Label>) -> bool {
    edge.source == id(source) && edge.target == id(target) && edge.label == label
}

#[test]
fn edges(rt: HostRuntime) -> Result<(), Fail> {
    let ir = whole(rt.alloc())?;
    let cfg = ir.cfg.as_ref().ok_or("no cfg")?;
    let [there, back] = cfg.edges.as_slice() else {
        return Err("not two edges")?;
    };
    let label = Label {
        conditional: true,
        direct: true,
        kind: 1,
    };
    assert!(rt; is_edge(there, 5, 12, Some(label)));
    assert!(rt; is_edge(back, 12, 5, None));
    assert!(rt; cfg.vertices.as_slice() == [id(5), id(12)].as_slice());
    Ok(())
}
