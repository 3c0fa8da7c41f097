// Harts, and the start of a call on one.
ghost use Rattle.std.specs.Prelude.{◌≡◌, ◌≤◌, ◌<◌, ◌^◌, ◌+◌, ◌-◌, ◌*◌, ◌++◌, [], ℕ, List, length, drop, replicate, slice_index, IfOk, vec_len};
ghost use Rattle.ir_meaning.specs.Plays.{Meaning};
ghost use Rattle.rv_core.specs.Step.{view};
ghost use Rattle.rv_play.specs.Ending.{start_regs};
ghost use Rattle.hart.specs.Standing.{IsFor};
ghost use Rattle.hart.specs.Calls.{Stands, HasRoomFor, IsCall, IsNew, AreZeros, origin_of, with_image, with_bytes};

use crate::forms::Forms;
use crate::hart::{Hart, Image, Phase};
use crate::map::{CONTROL_END, DATA, EXIT, STUBS};
use ir_meaning::calls::ListedCall;
use rj_num::NoMemory;
use rv_core::step::Regs;
use std::alloc::Global;

impl Hart {
    /// A hart with so many bytes of data memory and its control stack, all 0. It knows no function.
    pub fn new(alloc: Global, room: u64) -> Result<Hart, NoMemory>
        requires { room ≤ 67108864 }
        ensures { IfOk result (IsNew room) }
    {
        let bytes = zeros(alloc, room as usize)?;
        let control = zeros(alloc, 8_388_608)?;
        let forms = Forms::new(alloc)?;
        Ok(Hart {
            regs: Regs { x: [0; 32], pc: 0 },
            bytes,
            control,
            widths: Vec::new(alloc),
            functions: 0,
            code_words: 0,
            width: None,
            fuel: 0,
            left: 0,
            phase: Phase::Idle,
            forms,
        })
    }

    /// Starts a call: the image is written, with 0 up to its top; all other bytes stay.
    pub fn start(&mut self, image: &Image, call: &ListedCall, code_words: u32)
        requires image { HasRoomFor (vec_len self.old.bytes) image.now }
        requires call { IsCall self.old.functions call.now }
        requires code { code_words ≤ 4194304 }
        ensures stands { (m : Meaning) → IsFor m self.old → Stands m (origin_of self.old image.now call.now code_words) self.new [] [] }
        ensures phase { self.new.phase ≡ Phase.Start }
        ensures bytes { self.new.bytes.items ≡ with_image image.now self.old.bytes.items }
        ensures control { self.new.control ≡ self.old.control }
        ensures known { (self.new.functions ≡ self.old.functions) × (self.new.widths ≡ self.old.widths) }
        ensures code { self.new.code_words ≡ code_words }
        ensures left { self.new.left ≡ 256 * call.now.turns }
        ensures in_range { ((i : ℕ) → slice_index self.new.bytes.items i < 256) × ((i : ℕ) → slice_index self.new.control.items i < 256) }
    {
        write_image(
            &mut self.bytes,
            image.bytes.as_slice(),
            (image.top - DATA) as usize,
        );
        self.regs = first_regs(call.symbol, call.args.as_slice(), image.top);
        self.width = self.widths[call.symbol as usize];
        self.code_words = code_words;
        self.fuel = 256 * call.turns;
        self.left = self.fuel;
        self.phase = Phase::Start;
        bytes_fit(&self.bytes);
        bytes_fit(&self.control);
    }
}

// Each byte is below 256.
fn bytes_fit(bytes: &Vec<u8>)
    ensures { (i : ℕ) → slice_index bytes.now.items i < 256 }
{}

// So many bytes, each 0.
fn zeros(alloc: Global, count: usize) -> Result<Vec<u8>, NoMemory>
    ensures { IfOk result (λ v. AreZeros count v.items) }
{
    match vec![in alloc; 0u8; count] {
        Ok(bytes) => Ok(bytes),
        Err(_) => Err(NoMemory),
    }
}

// Writes bytes to the beginning, and 0 behind them up to a place.
fn write_image(bytes: &mut Vec<u8>, image: &[u8], end: usize)
    requires image { length image.now ≤ end }
    requires room { end ≤ length bytes.old.items }
    ensures bytes { bytes.new.items ≡ with_bytes image.now end bytes.old.items }
    ensures length { vec_len bytes.new ≡ vec_len bytes.old }
{
    write_bytes(bytes, image, end);
}

fn write_bytes(bytes: &mut [u8], image: &[u8], end: usize)
    requires image { length image.now ≤ end }
    requires room { end ≤ length bytes.old }
    ensures { bytes.new ≡ with_bytes image.now end bytes.old }
{
    let len = image.len();
    bytes[..len].copy_from_slice(image);
    bytes[len..end].fill(0);
}

// The registers at the start of a call: arguments from a0 on, zeros but for ra, sp and s11.
fn first_regs(symbol: u32, args: &[u128], top: u64) -> Regs
    requires symbol { symbol < 1024 }
    requires args { (i : ℕ) → slice_index args.now i < 2 ^ 64 }
    ensures { view result ≡ start_regs symbol args.now top }
{
    let a = [
        arg_at(args, 0),
        arg_at(args, 1),
        arg_at(args, 2),
        arg_at(args, 3),
        arg_at(args, 4),
        arg_at(args, 5),
        arg_at(args, 6),
        arg_at(args, 7),
    ];
    Regs {
        x: [
            0,
            EXIT,
            CONTROL_END,
            0,
            0,
            0,
            0,
            0,
            0,
            0,
            a[0],
            a[1],
            a[2],
            a[3],
            a[4],
            a[5],
            a[6],
            a[7],
            0,
            0,
            0,
            0,
            0,
            0,
            0,
            0,
            0,
            top,
            0,
            0,
            0,
            0,
        ],
        pc: STUBS + 16 * symbol as u64,
    }
}

// An argument, or 0 where there is none.
fn arg_at(args: &[u128], place: usize) -> u64
    requires { (i : ℕ) → slice_index args.now i < 2 ^ 64 }
    ensures { result ≡ slice_index args.now place }
{
    match args.get(place) {
        Some(arg) => *arg as u64,
        None => 0,
    }
}
