use crate::{Entropy, FileEntropy};
use std::fs;
use std::test::Fail;

#[test]
fn a_draw_reads_the_next_32_octets(rt: HostRuntime) -> Result<(), Fail> {
    let alloc = rt.alloc();
    let mut entropy = FileEntropy::new(&rt, String::from_str(alloc, "entropy_words")?);
    let mut words = [0u8; 32];
    // The file isn't there before the first call, and is opened by the second.
    assert!(rt; entropy.draw(&mut words).is_err());
    fs::write(
        &rt,
        "entropy_words",
        "0123456789abcdef0123456789ABCDEFghijklmnopqrstuvGHIJKLMNOPQRSTUVend",
    )?;
    entropy.draw(&mut words)?;
    assert_eq!(rt; words, *b"0123456789abcdef0123456789ABCDEF");
    entropy.draw(&mut words)?;
    assert_eq!(rt; words, *b"ghijklmnopqrstuvGHIJKLMNOPQRSTUV");
    assert!(rt; entropy.draw(&mut words).is_err());
    fs::remove_file(&rt, "entropy_words")?;
    Ok(())
}
