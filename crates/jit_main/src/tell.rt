ghost use Rattle.std.specs.Prelude.{◌≡◌, ◌++◌, IfOk, OnErr, codes};
ghost use Rattle.jit_main.specs.Ends.{no_file_text, room_text as room_line, text_of, Said, SaidWhy};
ghost use Rattle.jit_main.specs.declared.stop.Stop.TheVariants.{NoMemory as OfMemory};

use crate::stop::Stop;
use ir_print_names::Page;
use jit_text::{no_image_text, uncalled_text, unread_text, unverified_text};
use rj_io::{Sink, write_all};
use rj_num::NoMemory;
use std::alloc::Global;

/// Writes a text, or a front of it where the sink fails.
fn say<T: Sink>(err: &mut T, text: &[u8])
    ensures { Said (T.taken err.old) (T.taken err.new) (T.faults err.old) (T.faults err.new) text.now }
{
    let _ = write_all(err, text);
}

fn say_line<T: Sink>(err: &mut T, line: &str)
    ensures { Said (T.taken err.old) (T.taken err.new) (T.faults err.old) (T.faults err.new) (line.now ++ codes "\n") }
{
    match write_all(err, line.as_bytes()) {
        Ok(()) => say(err, b"\n"),
        Err(_) => {}
    }
}

fn say_unread<T: Sink>(err: &mut T, name: &str)
    ensures { Said (T.taken err.old) (T.taken err.new) (T.faults err.old) (T.faults err.new) (no_file_text name.now) }
{
    match write_all(err, b"reopt: cannot read ") {
        Ok(()) => say_line(err, name),
        Err(_) => {}
    }
}

/// The text that says how many code words the quick code takes, and how many there are.
fn room_text(alloc: Global, needed: u64, had: u32) -> Result<Vec<u8>, NoMemory>
    ensures { IfOk result (λ text. text.items ≡ room_line needed had) }
{
    let mut page = Page::new(alloc);
    page.write(b"reopt: code: needs ")?;
    page.number(u128::from(needed))?;
    page.write(b" words, has ")?;
    page.number(u128::from(had))?;
    page.write(b"\n")?;
    Ok(page.into_bytes())
}

/// Says a text that was made, or that there was no memory for it, and gives the status.
fn say_made<T: Sink>(err: &mut T, made: Result<Vec<u8>, NoMemory>, status: u8) -> u8
    ensures made { IfOk made (λ text. (result ≡ status) × Said (T.taken err.old) (T.taken err.new) (T.faults err.old) (T.faults err.new) text.items) }
    ensures unmade { OnErr made ((result ≡ 6) × Said (T.taken err.old) (T.taken err.new) (T.faults err.old) (T.faults err.new) (text_of OfMemory)) }
{
    match made {
        Ok(text) => {
            say(err, &text);
            status
        }
        Err(_) => {
            say(err, b"reopt: no memory\n");
            6
        }
    }
}

/// Says why the program stops, and gives the status. Where there is no memory for the text of a refusal, that is said.
pub fn report<T: Sink>(alloc: Global, err: &mut T, stop: &Stop) -> u8
    ensures { SaidWhy stop.now result (T.taken err.old) (T.taken err.new) (T.faults err.old) (T.faults err.new) }
{
    match stop {
        Stop::Usage => {
            say(err, b"reopt: usage\n");
            3
        }
        Stop::CannotRead(name) => {
            say_unread(err, name);
            4
        }
        Stop::NoMemory => {
            say(err, b"reopt: no memory\n");
            6
        }
        Stop::Unread(refusal) => say_made(err, unread_text(alloc, refusal), 2),
        Stop::Unverified(module, refusal) => {
            let made = unverified_text(alloc, module.functions.as_slice(), refusal);
            say_made(err, made, 2)
        }
        Stop::TooBig(bytes, room) => say_made(err, no_image_text(alloc, *bytes, *room), 2),
        Stop::Uncalled(refusal) => say_made(err, uncalled_text(alloc, *refusal), 2),
        Stop::NoRoom(needed, had) => say_made(err, room_text(alloc, *needed, *had), 7),
    }
}
