//! What the outside gives and takes.

use scj_base::Failed;
use scj_io::{FileShelf, LoadError, Shelf, StdSink, put_all};
use std::alloc::Global;
use std::test::Fail;
use std::{env, fs, process};

// A load through the bound, by its bytes' sum and number.
fn loaded<H: Shelf>(
    shelf: &mut H,
    alloc: Global,
    name: &str,
    limit: usize,
) -> Result<(usize, u64), LoadError> {
    let bytes = shelf.load(alloc, name, limit)?;
    let mut sum: u64 = 0;
    for byte in &bytes {
        sum = sum.wrapping_mul(256).wrapping_add(u64::from(*byte));
    }
    Ok((bytes.len(), sum))
}

#[test]
fn a_file_is_loaded_up_to_the_limit(rt: HostRuntime) -> Result<(), Fail> {
    let id = process::id(rt.process());
    let name = format!(in rt.alloc(); "scj_io_{id}")?;
    let path = env::temp_dir(&rt)?.join(rt.alloc(), name.as_str())?;
    let path = path.to_str().ok_or("a path that is no text")?;
    fs::write(&rt, path, b"abc")?;
    let mut shelf = FileShelf::new(&rt);
    let whole = loaded(&mut shelf, rt.alloc(), path, 3);
    let longer = loaded(&mut shelf, rt.alloc(), path, 2);
    fs::remove_file(&rt, path)?;
    assert_eq!(rt; whole, Ok((3, 0x61_62_63)));
    assert_eq!(rt; longer, Err(LoadError::TooLong { taken: 3 }));
    let missing = loaded(&mut shelf, rt.alloc(), path, 3);
    assert_eq!(rt; missing, Err(LoadError::Failed));
    let folder = loaded(&mut shelf, rt.alloc(), "/", 3);
    assert_eq!(rt; folder, Err(LoadError::Failed));
    Ok(())
}

#[test]
fn a_writer_that_takes_no_more_fails_the_put(rt: HostRuntime) {
    let mut room = [0; 5];
    let mut sink = StdSink::new(&mut room[..]);
    assert_eq!(rt; put_all(&mut sink, b"abc"), Ok(()));
    assert_eq!(rt; put_all(&mut sink, b"defg"), Err(Failed));
    assert_eq!(rt; room, *b"abcde");
}
