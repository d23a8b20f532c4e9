//! Faults with their places, and what is printed.
use knox_sexpr::{SexprFault, print, read};
use knox_text::Place;
use std::test::Fail;

#[test]
fn faults(rt: HostRuntime) -> Result<(), Fail> {
    let deep = [b'('; 257];
    let cases: [(&[u8], u32, &str); 4] = [
        (&deep, 257, "TooDeep"),
        (b"(spec", 6, "Unclosed"),
        (b")", 1, "Unopened"),
        (
            b"(spec (field a 8 340282366920938463463374607431768211456))",
            18,
            "BadAtom",
        ),
    ];
    for (text, column, why) in cases {
        assert!(rt; text.len() < 1000);
        let place = Place { line: 1, column };
        let wanted = match why {
            "TooDeep" => SexprFault::TooDeep(place),
            "Unclosed" => SexprFault::Unclosed(place),
            "Unopened" => SexprFault::Unopened(place),
            _ => SexprFault::BadAtom(place),
        };
        assert!(rt;
            matches!(read(rt.alloc(), text), Err(fault) if fault == wanted),
            "{why}"
        );
    }
    Ok(())
}

#[test]
fn printed(rt: HostRuntime) -> Result<(), Fail> {
    let text: &[u8] = b"(spec ; one field\r\n\t(field a #x8 007) ())x#";
    assert!(rt; text.len() < 1000);
    let trees = read(rt.alloc(), text).ok().ok_or("the text means trees")?;
    let out = print(rt.alloc(), trees.as_slice())?;
    let wanted: &[u8] = b"(spec (field a #b1000 7) ())\nx#\n";
    assert!(rt; out.as_slice() == wanted);
    Ok(())
}
