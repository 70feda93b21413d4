use crate::{
    Calls, FileName, FileNameFault, Folder, FolderFault, HostFolder, HostSink, MemFolder, MemSink,
    NamedFiles, Sink, SinkFault, read_whole,
};
use std::alloc::Global;
use std::test::Fail;

// A folder with the files A.v and Empty.v that fails at the calls of those numbers.
fn folder(alloc: Global, fail: &[u64]) -> Result<MemFolder, Fail> {
    let mut files = NamedFiles::new(alloc);
    let source = Vec::from_slice(alloc, b"Axiom P : Prop.")?;
    files.add(FileName::new(alloc, b"A.v")?, source)?;
    files.add(FileName::new(alloc, b"Empty.v")?, Vec::new(alloc))?;
    Ok(MemFolder::new(alloc, files, calls(alloc, fail)?)?)
}

fn calls(alloc: Global, numbers: &[u64]) -> Result<Calls, Fail> {
    let mut calls = Calls::none(alloc);
    for number in numbers {
        calls.add(*number)?;
    }
    Ok(calls)
}

#[test]
fn names_of_files(rt: HostRuntime) {
    for good in ["A", "A.v", "...", ".v", "un nom", "nécessaire"] {
        let name = FileName::new(rt.alloc(), good.as_bytes());
        assert!(rt; name.is_ok_and(|name| name.text() == good), "at {good}");
    }
    for bad in [
        b"".as_slice(),
        b".",
        b"..",
        b"/",
        b"a/b",
        b"a\0",
        b"\xff",
        b"caf\xc3",
    ] {
        let name = FileName::new(rt.alloc(), bad);
        assert!(rt; matches!(name, Err(FileNameFault::BadName)), "at {bad:?}");
    }
    let longest = [b'a'; 301];
    assert!(rt; FileName::new(rt.alloc(), &longest[..300]).is_ok());
    assert!(rt;
        matches!(
            FileName::new(rt.alloc(), &longest),
            Err(FileNameFault::BadName)
        )
    );
}

#[test]
fn files_in_memory(rt: HostRuntime) -> Result<(), Fail> {
    let mut folder = folder(rt.alloc(), &[])?;
    assert!(rt; folder.size("A.v")? == Some(15));
    assert!(rt; folder.size("Empty.v")? == Some(0));
    assert!(rt; folder.size("B.v")?.is_none());
    let mut into = [b'-'; 4];
    assert_eq!(rt; folder.read_at("A.v", 6, &mut into)?, 4);
    assert_eq!(rt; into.as_slice(), b"P : ".as_slice());
    assert_eq!(rt; folder.read_at("A.v", 13, &mut into)?, 2);
    assert_eq!(rt; &into[..2], b"p.".as_slice());
    assert_eq!(rt; folder.read_at("A.v", 15, &mut into)?, 0);
    assert_eq!(rt; folder.read_at("A.v", u64::MAX, &mut into)?, 0);
    assert_eq!(rt; folder.read_at("B.v", 0, &mut into)?, 0);
    for (name, count, want) in [
        ("A.v", 15, "Axiom P : Prop."),
        ("A.v", 99, "Axiom P : Prop."),
        ("A.v", 5, "Axiom"),
        ("B.v", 5, ""),
    ] {
        let bytes = read_whole(rt.alloc(), &mut folder, name, count)?;
        assert_eq!(rt; bytes.as_slice(), want.as_bytes(), "{name} {count}");
    }
    Ok(())
}

#[test]
fn calls_that_fail(rt: HostRuntime) -> Result<(), Fail> {
    let mut folder = folder(rt.alloc(), &[1, 3, 4])?;
    let mut into = [0u8; 4];
    assert!(rt; folder.size("A.v") == Err(FolderFault::Failed));
    assert!(rt; folder.read_at("A.v", 0, &mut into) == Ok(4));
    assert!(rt; folder.read_at("A.v", 0, &mut into) == Err(FolderFault::Failed));
    let whole = read_whole(rt.alloc(), &mut folder, "A.v", 15);
    assert!(rt; matches!(whole, Err(FolderFault::Failed)));
    assert!(rt; folder.size("A.v") == Ok(Some(15)));

    let mut sink = MemSink::new(rt.alloc(), calls(rt.alloc(), &[2])?)?;
    assert!(rt; sink.write(b"one").is_ok());
    assert!(rt; sink.write(b"two") == Err(SinkFault::Failed));
    assert_eq!(rt; sink.faults(), 1);
    assert!(rt; sink.write(b", three").is_ok());
    assert_eq!(rt; sink.sent(), b"one, three".as_slice());
    assert_eq!(rt; sink.faults(), 1);
    Ok(())
}

#[test]
fn the_host(rt: HostRuntime) -> Result<(), Fail> {
    let mut folder = HostFolder::new(&rt);
    assert!(rt; folder.size("no such file.v")?.is_none());
    assert!(rt; folder.size("/")?.is_none());
    let mut into = [0u8; 4];
    assert!(rt; folder.read_at("no such file.v", 0, &mut into) == Err(FolderFault::Failed));
    let mut sink = HostSink::new(&rt);
    assert!(rt; sink.write(b"sent\n").is_ok());
    Ok(())
}
