ghost use Rattle.std.specs.Prelude.{◌≡◌, ◌≤◌, List, ℕ, length, IfOk, IfErr, Ok};
ghost use Rattle.command_words.specs.Ranges.{IsRoom};
ghost use Rattle.jit_calls.specs.Listed.{AllListed};
ghost use Rattle.jit_calls.specs.Lists.{calls_of};
ghost use Rattle.ir_reader.specs.Reads.{Reads};
ghost use Rattle.jit_main.specs.Run.{IsCheckedText, HasImage, IsImageFor};
ghost use Rattle.jit_main.specs.Fronts.{IsFrontOf};
ghost use Rattle.jit_main.specs.Ends.{ModuleStop, FrontStop};

use crate::stop::Stop;
use ir_core::program::Module;
use ir_data::image::{Image, ImageRefusal, first_image};
use ir_meaning::calls::ListedCall;
use ir_reader::{ReadRefusal, read};
use ir_verify::checked::Checked;
use ir_verify::refusal::VerifyRefusal;
use ir_verify::verdict::verify;
use jit_calls::{CallsRefusal, read_calls};
use sqlite_items::Items;
use std::alloc::Global;

/// What a module's text and the text of its calls say.
#[derive(Drop)]
pub struct Front {
    pub checked: Checked,
    pub image: Image,
    pub calls: Items<ListedCall>,
}

/// The module of a text.
fn read_module<'a>(alloc: Global, text: &[u8]) -> Result<Module, Stop<'a>>
    ensures found { IfOk result (λ all. Reads text.now all) }
    ensures stop { IfErr result (λ stop. ModuleStop text.now stop) }
{
    match read(alloc, text) {
        Ok(module) => Ok(module),
        Err(ReadRefusal::NoMemory) => Err(Stop::NoMemory),
        Err(refusal) => Err(Stop::Unread(refusal)),
    }
}

/// The module of a text as a checked one.
fn checked_module<'a>(
    alloc: Global,
    text: &[u8],
    module: Module,
    room: u64,
) -> Result<Checked, Stop<'a>>
    requires reads { Reads text.now «module» }
    requires room { IsRoom room }
    ensures found { IfOk result (λ checked. IsCheckedText text.now room checked) }
    ensures stop { IfErr result (λ stop. ModuleStop text.now stop) }
{
    match verify(alloc, module, room) {
        Ok(checked) => Ok(checked),
        Err((_, VerifyRefusal::NoMemory)) => Err(Stop::NoMemory),
        Err((module, refusal)) => Err(Stop::Unverified(module, refusal)),
    }
}

/// The checked module of a text, with so many bytes of data memory.
pub fn module_of<'a>(alloc: Global, text: &[u8], room: u64) -> Result<Checked, Stop<'a>>
    requires { IsRoom room }
    ensures found { IfOk result (λ checked. IsCheckedText text.now room checked) }
    ensures stop { IfErr result (λ stop. ModuleStop text.now stop) }
{
    match read_module(alloc, text) {
        Ok(module) => checked_module(alloc, text, module, room),
        Err(stop) => Err(stop),
    }
}

/// The image of the module's globals, where they fit the data memory.
fn image_of<'a>(alloc: Global, text: &[u8], room: u64, checked: &Checked) -> Result<Image, Stop<'a>>
    requires { IsCheckedText text.now room checked.now }
    ensures found { IfOk result (λ image. IsImageFor checked.now image) }
    ensures stop { IfErr result (λ stop. (calls_text : List ℕ) → FrontStop text.now calls_text room stop) }
{
    match first_image(alloc, checked) {
        Ok(image) => Ok(image),
        Err(ImageRefusal::TooBig { bytes, room }) => Err(Stop::TooBig(bytes, room)),
        Err(ImageRefusal::NoMemory) => Err(Stop::NoMemory),
    }
}

/// The calls of a text.
fn calls_in<'a>(
    alloc: Global,
    module_text: &[u8],
    calls_text: &[u8],
    room: u64,
    checked: &Checked,
) -> Result<Items<ListedCall>, Stop<'a>>
    requires text { IsCheckedText module_text.now room checked.now }
    requires image { HasImage checked.now }
    ensures calls { IfOk result (λ list. calls_of checked.now.module_ calls_text.now ≡ Ok list) }
    ensures listed { IfOk result (λ list. AllListed checked.now.module_.functions list) }
    ensures few { IfOk result (λ list. length list ≤ 65536) }
    ensures stop { IfErr result (λ stop. FrontStop module_text.now calls_text.now room stop) }
{
    match read_calls(alloc, calls_text, checked) {
        Ok(list) => Ok(list),
        Err(CallsRefusal::NoMemory) => Err(Stop::NoMemory),
        Err(refusal) => Err(Stop::Uncalled(refusal)),
    }
}

/// What two texts say, a module's and its calls', or why they say nothing.
pub fn front_of<'a>(
    alloc: Global,
    module_text: &[u8],
    calls_text: &[u8],
    room: u64,
) -> Result<Front, Stop<'a>>
    requires { IsRoom room }
    ensures found { IfOk result (λ front. IsFrontOf module_text.now calls_text.now room front) }
    ensures listed { IfOk result (λ front. AllListed front.checked.module_.functions front.calls) }
    ensures few { IfOk result (λ front. length front.calls ≤ 65536) }
    ensures stop { IfErr result (λ stop. FrontStop module_text.now calls_text.now room stop) }
{
    let checked = match module_of(alloc, module_text, room) {
        Ok(checked) => checked,
        Err(stop) => return Err(stop),
    };
    let image = match image_of(alloc, module_text, room, &checked) {
        Ok(image) => image,
        Err(stop) => return Err(stop),
    };
    match calls_in(alloc, module_text, calls_text, room, &checked) {
        Ok(calls) => Ok(Front {
            checked,
            image,
            calls,
        }),
        Err(stop) => Err(stop),
    }
}
