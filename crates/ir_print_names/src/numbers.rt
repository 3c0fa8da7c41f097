// Numbers of a width.
ghost use Rattle.std.specs.Prelude.{◌≡◌, ◌≤◌, ◌++◌, OnOk, decimal, if◌then◌else◌};
ghost use Rattle.std.specs.Fmt.{signed_decimal};
ghost use Rattle.rj_num.specs.Width.{signed, holds_unsigned};
ghost use Rattle.ir_print_names.specs.Numbers.{number_text};

use crate::page::Page;
use rj_num::NoMemory;
use rj_num::width::{fits_unsigned, sign_of};

/// `true` and `false` of one bit, and else a number with its sign.
pub fn number(page: &mut Page, width: u32, number: u128) -> Result<(), NoMemory>
    ensures { OnOk result (page.new ≡ page.old ++ number_text width number) }
{
    if width == 1 && number == 0 {
        return page.write(b"false");
    }
    if width == 1 && number == 1 {
        return page.write(b"true");
    }
    if 1 <= width && width <= 128 {
        return held_number(page, width, number);
    }
    page.number(number)
}

fn held_number(page: &mut Page, width: u32, number: u128) -> Result<(), NoMemory>
    requires { (1 ≤ width) × (width ≤ 128) }
    ensures { OnOk result (page.new ≡ page.old ++ (if holds_unsigned width number then signed_decimal (signed width number) else decimal number)) }
{
    if fits_unsigned(number, width) {
        return page.signed(sign_of(number, width));
    }
    page.number(number)
}
