// The first and last places of a frame, and the map's addresses.

use abi::frame::{arg_reg, save_offset, saved_regs, slot_offset};
use abi::map::{address_of_word, cell_of, stub_of};
use rv_core::reg::Reg;

#[test]
fn places(rt: HostRuntime) {
    assert!(rt; arg_reg(0) == Reg::A0 && arg_reg(7) == Reg::A7);
    let saved = saved_regs();
    assert!(rt; saved[0] == Reg::Ra && saved[1] == Reg::S0 && saved[11] == Reg::S10);
    assert!(rt;
        save_offset(192, 0) == 184 && save_offset(192, 1) == 176 && save_offset(128, 11) == 32
    );
    assert!(rt; slot_offset(3) == 24);
    assert!(rt;
        stub_of(1) == 0x1_0010 && cell_of(2) == 0x10_0010 && address_of_word(1) == 0x100_0004
    );
}
