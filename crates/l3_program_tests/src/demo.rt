use l3_io::read_full;
use l3_wav::demo_source;

#[test]
fn first_demo_samples(rt: HostRuntime) {
    let mut front = [0; 52];
    assert!(rt; read_full(&mut demo_source(1, 0), &mut front) == Ok(52));

    // Behind the 40 bytes before them the size of the data, 4608, and the samples -14325, -7192,
    // -4365 and -2162.
    assert!(rt; front.ends_with(&[0, 18, 0, 0, 0x0B, 0xC8, 0xE8, 0xE3, 0xF3, 0xEE, 0x8E, 0xF7]));
}
