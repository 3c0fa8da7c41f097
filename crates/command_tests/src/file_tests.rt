// Files and sinks, in memory and real.
use rj_io::{Files, LoadRefusal, MemFiles, MemSink, RealFiles, RealSink, Short, write_all};
use std::test::Fail;
use std::{fs, io};

fn text(alloc: std::alloc::Global, s: &str) -> Result<String, std::alloc::AllocError> {
    String::from_str(alloc, s)
}

#[test]
fn the_first_file_of_a_name_is_loaded(rt: HostRuntime) -> Result<(), Fail> {
    let mut held = Vec::new(rt.alloc());
    held.push((text(rt.alloc(), "a")?, b"first".to_vec(rt.alloc())?))?;
    held.push((text(rt.alloc(), "a")?, b"second".to_vec(rt.alloc())?))?;
    let mut files = MemFiles::new(held, [1].to_vec(rt.alloc())?);
    let loaded = files.load(rt.alloc(), "a", 3).ok().ok_or("held")?;
    assert_eq!(rt; loaded.as_slice(), b"fir".as_slice());
    assert!(rt; matches!(files.load(rt.alloc(), "a", 3), Err(LoadRefusal::Failed)));
    assert!(rt; matches!(files.load(rt.alloc(), "b", 3), Err(LoadRefusal::Failed)));
    let whole = files.load(rt.alloc(), "a", 99).ok().ok_or("held")?;
    assert_eq!(rt; whole.as_slice(), b"first".as_slice());
    Ok(())
}

#[test]
fn a_failing_write_cuts_the_text(rt: HostRuntime) -> Result<(), Fail> {
    let mut sink = MemSink::new(rt.alloc(), 100, 4, [2].to_vec(rt.alloc())?)?;
    assert_eq!(rt;
        write_all(&mut sink, b"@add(2, 3) = 5\n"),
        Err(Short { sent: 8 })
    );
    assert_eq!(rt; sink.bytes(), b"@add(2, ".as_slice());
    Ok(())
}

#[test]
fn a_full_sink_refuses(rt: HostRuntime) -> Result<(), Fail> {
    let mut sink = MemSink::new(rt.alloc(), 3, 2, Vec::new(rt.alloc()))?;
    assert_eq!(rt; write_all(&mut sink, b"abc"), Ok(()));
    assert_eq!(rt; write_all(&mut sink, b"d"), Err(Short { sent: 0 }));
    assert_eq!(rt; sink.bytes(), b"abc".as_slice());
    Ok(())
}

#[test]
fn a_real_file_is_loaded_up_to_a_limit(rt: HostRuntime) -> Result<(), Fail> {
    fs::write(&rt, "x.txt", "hello")?;
    let mut files = RealFiles::new(rt);
    let loaded = files
        .load(rt.alloc(), "x.txt", 4)
        .ok()
        .ok_or("the file is there")?;
    assert_eq!(rt; loaded.as_slice(), b"hell".as_slice());
    assert!(rt;
        matches!(
            files.load(rt.alloc(), "none.txt", 4),
            Err(LoadRefusal::Failed)
        )
    );
    Ok(())
}

#[test]
fn a_real_stream_takes_all(rt: HostRuntime) {
    let mut sink = RealSink::new(io::writer(&rt));
    assert_eq!(rt; write_all(&mut sink, b"out\n"), Ok(()));
}
