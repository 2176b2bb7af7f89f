// Lines worked out by hand.
use crate::commands::{command_line, read_line};
use std::test::Fail;

#[test]
fn good_lines(rt: HostRuntime) -> Result<(), Fail> {
    let command = read_line(b"H 0 05\n").ok_or("a hold")?;
    assert_eq!(rt; command_line(rt.alloc(), command)?.as_str(), "H 0 5\n");
    let command = read_line(b"R 0100\n").ok_or("a redrawing")?;
    assert_eq!(rt; command_line(rt.alloc(), command)?.as_str(), "R 100\n");
    Ok(())
}

#[test]
fn bad_lines(rt: HostRuntime) {
    assert!(rt; read_line(b"T 1").is_none());
    assert!(rt; read_line(b"T 4294967296\n").is_none());
    assert!(rt; read_line(b"T 00000000001\n").is_none());
    assert!(rt; read_line(b"R\n").is_none());
}
