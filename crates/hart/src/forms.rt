// Words that were decoded: a hart keeps the form of each word that it ran last, by the word's place.
ghost use Rattle.std.specs.Prelude.{◌≡◌, ◌<◌, length};
ghost use Rattle.rv_encode.specs.Reading.{instr_of};
ghost use Rattle.hart.specs.Forms.{reads_as};

use crate::form::{Form, form_of};
use crate::words::instr_at;
use rj_num::NoMemory;
use std::alloc::Global;

/// A word and its form.
#[derive(Clone, Copy)]
struct Entry {
    word: u32,
    form: Form,
    ghost says: { reads_as form (instr_of word) ≡ instr_of word },
}

/// An entry for each place. Which word an entry is of is compared each time that it is used.
#[derive(Drop)]
pub struct Forms {
    entries: Vec<Entry>,
    ghost long: { length entries.items ≡ 4096 },
}

impl Forms {
    pub fn new(alloc: Global) -> Result<Forms, NoMemory> {
        let entry = Entry {
            word: 0,
            form: Form::Other,
        };
        match vec![in alloc; entry; 4096] {
            Ok(entries) => Ok(Forms { entries }),
            Err(_) => Err(NoMemory),
        }
    }

    /// The form of the word at an address.
    #[inline(always)]
    pub fn read(&mut self, address: u64, word: u32) -> Form
        ensures { reads_as result (instr_of word) ≡ instr_of word }
    {
        let place = (address / 4 % 4096) as usize;
        let entry = self.entries[place];
        if entry.word == word {
            entry.form
        } else {
            self.put(place, word)
        }
    }

    #[inline(never)]
    fn put(&mut self, place: usize, word: u32) -> Form
        requires { place < 4096 }
        ensures { reads_as result (instr_of word) ≡ instr_of word }
    {
        let form = form_at(word);
        self.entries[place] = Entry { word, form };
        form
    }
}

// The form of a word.
fn form_at(word: u32) -> Form
    ensures { reads_as result (instr_of word) ≡ instr_of word }
{
    match instr_at(word) {
        Some(instr) => form_of(instr),
        None => Form::Other,
    }
}
