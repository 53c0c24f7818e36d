//! Words that are written, read, forgotten and written again.

use crate::RawWords;
use std::rt::HostRuntime;

#[test]
fn words_are_written_read_and_forgotten(rt: HostRuntime) {
    match RawWords::make(rt.alloc(), 4) {
        Ok(mut words) => {
            words.write(2, 7);
            words.write(1, 5);
            assert!(&rt; words.read(2) == 7 && words.read(1) == 5);
            words.forget_from(2);
            assert!(&rt; words.read(1) == 5 && words.len() == 4);
            words.write(3, 1);
            words.write(3, 2);
            assert!(&rt; words.read(3) == 2);
        }
        Err(_refused) => panic!(&rt; "no memory"),
    }
}
