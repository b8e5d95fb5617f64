//! The edge over a real file and over a writer.

use crate::edge::{DirStore, StdoutSink};
use outside::sink::{Sink, SinkFault};
use outside::store::{Store, StoreError};
use std::{fs, io};

#[test]
fn the_edge_reads_and_writes(rt: HostRuntime) -> io::Result<()> {
    let alloc = rt.alloc();
    let path = "edge_test.txt";
    fs::write(&rt, path, "text")?;
    let mut store = DirStore::new(&rt, alloc);
    let whole = store.read_file(alloc, path, 4);
    let longer = store.read_file(alloc, path, 3);
    fs::remove_file(&rt, path)?;
    let missing = store.read_file(alloc, path, 4);
    assert!(rt; matches!(&whole, Ok(bytes) if bytes.as_slice() == b"text".as_slice()));
    assert!(rt; matches!(longer, Err(StoreError::TooLong)));
    assert!(rt; matches!(missing, Err(StoreError::Failed)));
    let mut sink = StdoutSink::new(Vec::new(alloc));
    assert_eq!(rt; sink.put(b"text"), Ok(4));
    let mut room: [u8; 0] = [];
    let mut full = StdoutSink::new(room.as_mut_slice());
    assert_eq!(rt; full.put(b"text"), Err(SinkFault));
    Ok(())
}
