use asm_shapes::valid_arguments;
use asm_syntax::unit::Width;
use call_bytes::arguments::Arguments;
use call_bytes::bytes::CallBytes;
use limits::MOST_BUFFER_BYTES;
use std::test::Fail;

#[test]
fn registers_of_each_argument(rt: HostRuntime) -> Result<(), Fail> {
    let w = Width::Word;
    let l = Width::Long;
    let table: [(&[Width], &[u8], &[u8]); 4] = [
        (&[], &[], &[]),
        (&[w, l, w], &[3, 5, 6, 7], &[3, 5, 7]),
        (&[l, l, l, l], &[3, 4, 5, 6, 7, 8, 9, 10], &[3, 5, 7, 9]),
        (
            &[w, w, l, l, l],
            &[3, 4, 5, 6, 7, 8, 9, 10],
            &[3, 4, 5, 7, 9],
        ),
    ];
    for (args, words, firsts) in table {
        if valid_arguments(args).is_err() {
            return Err("an argument passes r10".into());
        }
        let arguments = Arguments::new(args);
        assert_eq!(rt; arguments.words(), words);
        for (place, first) in (0..).zip(firsts) {
            assert_eq!(rt; arguments.first(place), Some(*first));
        }
    }
    Ok(())
}

/// One byte in the first list, two in the second and so on; a ninth is not opened.
#[test]
fn lists_in_their_order(rt: HostRuntime) -> Result<(), Fail> {
    let mut lists = CallBytes::new(rt.alloc())?;
    lists.put(9);
    for n in 1..9 {
        lists.open();
        for _ in 0..n {
            lists.put(n);
        }
    }
    lists.open();
    let expected: [&[u8]; 3] = [&[1], &[2, 2], &[3, 3, 3]];
    for (i, want) in (0..).zip(expected) {
        assert!(rt; i < lists.count());
        assert_eq!(rt; lists.bytes(i), want);
    }
    assert_eq!(rt; lists.count(), 8);
    assert_eq!(rt; lists.bytes(7).len(), 8);
    lists.clear();
    assert_eq!(rt; lists.count(), 0);
    Ok(())
}

#[test]
fn eight_of_the_longest_buffers(rt: HostRuntime) -> Result<(), Fail> {
    let mut lists = CallBytes::new(rt.alloc())?;
    for _ in 0..8 {
        lists.open();
        for _ in 0..MOST_BUFFER_BYTES {
            lists.put(1);
        }
    }
    lists.put(2);
    assert_eq!(rt; lists.count(), 8);
    for i in 0..8 {
        assert!(rt; i < lists.count());
        assert_eq!(rt; lists.bytes(i).len(), MOST_BUFFER_BYTES as usize);
    }
    Ok(())
}
