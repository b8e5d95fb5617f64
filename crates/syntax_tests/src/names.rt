use asm_syntax::name::{Name, NameError};
use std::test::Fail;

#[test]
fn names_of_each_length(rt: HostRuntime) -> Result<(), Fail> {
    let alloc = rt.alloc();
    let table = [
        (0, Err(NameError::Length)),
        (1, Ok(())),
        (255, Ok(())),
        (256, Err(NameError::Length)),
    ];
    for (length, want) in table {
        let bytes = vec![in alloc; b'x'; length]?;
        assert_eq!(rt; Name::from_bytes(alloc, &bytes).map(|_| ()), want);
    }
    for (bytes, want) in [
        (b"a b", Err(NameError::Byte(1))),
        (b"ab\x7f", Err(NameError::Byte(2))),
        (b"!.~", Ok(())),
    ] {
        assert_eq!(rt; Name::from_bytes(alloc, bytes).map(|_| ()), want);
    }
    Ok(())
}
