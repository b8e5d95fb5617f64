use outside::mem_sink::MemSink;
use outside::mem_store::MemStore;
use outside::sink::{Sink, SinkFault, put_all};
use outside::store::{Store, StoreError};
use std::alloc::AllocError;

#[test]
fn errors_have_numbers_and_texts(rt: HostRuntime) -> Result<(), AllocError> {
    let table = [
        (StoreError::Failed, 1, "the file could not be read"),
        (StoreError::TooLong, 2, "the file is too long"),
        (StoreError::Memory, 3, "out of memory"),
        (StoreError::Absent, 4, "there is no such file"),
    ];
    for (error, number, text) in table {
        assert_eq!(rt; error as u32, number);
        assert_eq!(rt; format!(in rt.alloc(); "{error}")?.as_str(), text);
    }
    assert_eq!(rt;
        format!(in rt.alloc(); "{SinkFault}")?.as_str(),
        "the output could not be written"
    );
    Ok(())
}

/// A name, a limit, and what the read answers.
static READS: [(&str, u32, Result<&[u8], StoreError>); 8] = [
    ("unit", 4, Ok(b"text")),
    ("unit", 4, Err(StoreError::Failed)),
    ("unit", 3, Err(StoreError::TooLong)),
    ("layout", 0, Ok(b"")),
    ("image", 4, Err(StoreError::Absent)),
    ("image", 4, Err(StoreError::Failed)),
    ("uni", 4, Err(StoreError::Absent)),
    ("unit", 5, Ok(b"text")),
];

fn reads() -> &'static [(&'static str, u32, Result<&'static [u8], StoreError>)] {
    &READS
}

#[test]
fn reads_by_name_limit_and_number(rt: HostRuntime) -> Result<(), AllocError> {
    let mut store = MemStore::new(rt.alloc());
    store.add("unit", b"old text")?;
    store.add("layout", b"")?;
    store.add("unit", b"text")?;
    store.fail_call(2)?;
    store.fail_call(6)?;
    for (name, limit, want) in reads() {
        let answer = store.read_file(rt.alloc(), name, *limit);
        match (&answer, want) {
            (Ok(bytes), Ok(text)) => assert_eq!(rt; bytes.as_slice(), *text),
            (Err(error), Err(cause)) => assert_eq!(rt; *error, *cause),
            _ => assert!(rt; false, "{name} with the limit {limit}"),
        }
    }
    Ok(())
}

#[test]
fn puts_as_many_as_it_may(rt: HostRuntime) -> Result<(), AllocError> {
    let mut sink = MemSink::new(rt.alloc(), 9, 4)?;
    sink.fail_call(2)?;
    let table: [(&[u8], Result<usize, SinkFault>, &[u8]); 6] = [
        (b"abcdef", Ok(4), b"abcd"),
        (b"ef", Err(SinkFault), b"abcd"),
        (b"ef", Ok(2), b"abcdef"),
        (b"g", Ok(1), b"abcdefg"),
        (b"hijk", Ok(2), b"abcdefghi"),
        (b"j", Err(SinkFault), b"abcdefghi"),
    ];
    for (bytes, want, taken) in table {
        assert_eq!(rt; sink.put(bytes), want);
        assert_eq!(rt; sink.taken(), taken);
    }
    Ok(())
}

#[test]
fn puts_all_or_a_shorter_prefix(rt: HostRuntime) -> Result<(), AllocError> {
    // room, most, the put that fails, whether all is taken, and what is
    let table: [(u32, u32, u32, Result<(), SinkFault>, &[u8]); 5] = [
        (8, 4, 3, Ok(()), b"abcdefgh"),
        (9, 3, 4, Ok(()), b"abcdefgh"),
        (9, 4, 2, Err(SinkFault), b"abcd"),
        (9, 4, 1, Err(SinkFault), b""),
        (6, 4, 9, Err(SinkFault), b"abcdef"),
    ];
    for (room, most, failing, want, taken) in table {
        let mut sink = MemSink::new(rt.alloc(), room, most)?;
        sink.fail_call(failing)?;
        assert_eq!(rt; put_all(&mut sink, b"abcdefgh"), want);
        assert_eq!(rt; sink.taken(), taken);
    }
    let mut full = MemSink::new(rt.alloc(), 0, 1)?;
    assert_eq!(rt; put_all(&mut full, b""), Ok(()));
    Ok(())
}
