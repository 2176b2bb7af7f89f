// The lines of a held run, its sheet, and the cheapest orders, worked out by hand.
use crate::carry_out;
use dispatch::dispatcher::Dispatcher;
use lines::replies::Reply;
use std::test::Fail;

#[test]
fn held_sheet(rt: HostRuntime) -> Result<(), Fail> {
    let mut dispatcher = Dispatcher::new();
    let plan =
        b"\x00\x02\x00\x00\x00\x0c\x00\x03\x00\x18\x00\x03\x00\x01\x00\x00\x00\x05\x00\x01\x00\x02\x00\x02\x00\x03\x00\x00\x00\x05\x00\x03\x00\x04\x00\x04";
    dispatcher
        .open(rt.alloc(), 1, plan)
        .ok()
        .ok_or("a good plan")?;
    let mut sheet = [0u8; 8];
    assert_eq!(rt;
        carry_out(&mut dispatcher, b"H 0 5\n", &mut sheet),
        Reply::Held
    );
    assert_eq!(rt;
        carry_out(&mut dispatcher, b"S\n", &mut sheet),
        Reply::Sheet { bytes: 8 }
    );
    assert_eq!(rt; sheet, *b"7 0\n9 1\n");
    assert_eq!(rt;
        carry_out(&mut dispatcher, b"R 100\n", &mut sheet),
        Reply::Redrawn { cost: 9 }
    );
    assert_eq!(rt;
        carry_out(&mut dispatcher, b"T 0\n", &mut sheet),
        Reply::Ticked { moved: 2 }
    );
    assert_eq!(rt;
        carry_out(&mut dispatcher, b"H 2 1\n", &mut sheet),
        Reply::Refused { number: 7 }
    );
    Ok(())
}
