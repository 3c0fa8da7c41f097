//! Named types by their definitions, with a list of what is being gone through in place of recursion.
ghost use Rattle.std.specs.Prelude.{◌≡◌, ◌+◌, ◌≤◌, ◌<◌, ◌++◌, ◌∷◌, [], ℕ, length, option_copied, slice_get, Some, Ok, OnOk, IsSome, replicate};
ghost use Rattle.ir_types.specs.Walk.{Gives};
ghost use Rattle.ir_types.specs.Replaced.{definition};
ghost use Rattle.ir_types.specs.Summaries.{no_parts, root_in, root_at, root_of, summary_step, IsResolution};
ghost use Rattle.ir_types.specs.Resolving.{Sound, IsAt, Moved, Turned, Settled, Started};

use crate::fault::Fault;
use crate::parts::Part;
use crate::summary::{Entry, NO_PARTS, Summary, summary_step};
use sqlite_items::Items;
use std::alloc::Global;

/// A definition that is gone through, up to a position, with the summary of what stands before that.
#[derive(Clone, Copy, Drop)]
pub struct Frame {
    pub ty: u32,
    pub position: usize,
    pub summary: Summary,
}

/// What is known of named types, and the definitions that are gone through, the innermost one last.
#[derive(Drop)]
pub struct Resolver {
    pub entries: Items<Entry>,
    pub frames: Items<Frame>,
}

fn body_of(body: &Option<Items<Part>>) -> Option<&[Part]>
    ensures { option_copied result ≡ body.now }
{
    match body {
        Some(parts) => Some(parts.as_slice()),
        None => None,
    }
}

/// The parts of a named type's definition.
pub fn definition(bodies: &[Option<Items<Part>>], ty: usize) -> Option<&[Part]>
    ensures { option_copied result ≡ definition bodies.now ty }
{
    match bodies.get(ty) {
        Some(body) => body_of(body),
        None => None,
    }
}

fn root_in(own: u32, rank: u64, entry: Option<Entry>) -> u32
    ensures { result ≡ root_in own rank entry }
{
    match entry {
        Some(Entry::Known(summary, root)) => { if summary.rank <= rank { root } else { own } }
        _ => own,
    }
}

fn root_at(known: &[Entry], own: u32, rank: u64, first: Option<Part>) -> u32
    ensures { result ≡ root_at known.now own rank first }
{
    match first {
        Some(Part::Named(number, _)) => root_in(own, rank, known.get(number as usize).copied()),
        _ => own,
    }
}

/// The type that stands for one whose definition is a name alone.
fn root_of(known: &[Entry], own: u32, rank: u64, body: &[Part]) -> u32
    ensures { result ≡ root_of known.now own rank body.now }
{
    if body.len() == 1 {
        root_at(known, own, rank, body.first().copied())
    } else {
        own
    }
}

impl Resolver {
    /// A definition that was gone through to its end.
    fn finish(
        &mut self,
        bodies: &[Option<Items<Part>>],
        frame: Frame,
        body: &[Part],
    ) -> Result<(), Fault>
        requires sound { Sound bodies.now self.old.entries (self.old.frames ++ frame ∷ []) }
        requires whole { definition bodies.now frame.ty ≡ Some body.now }
        requires end { length body.now ≤ frame.position }
        ensures { Moved bodies.now self.old.entries self.new result }
    {
        let Some(rank) = frame.summary.rank.checked_add(1) else {
            return Err(Fault::NoMemory);
        };
        let root = root_of(self.entries.as_slice(), frame.ty, frame.summary.rank, body);
        let summary = Summary {
            nodes: frame.summary.nodes,
            odd: frame.summary.odd,
            rank,
        };
        self.entries
            .set(frame.ty as usize, Entry::Known(summary, root));
        Ok(())
    }

    /// One part further.
    fn pass(
        &mut self,
        bodies: &[Option<Items<Part>>],
        frame: Frame,
        part: Part,
        summary: Summary,
    ) -> Result<(), Fault>
        requires sound { Sound bodies.now self.old.entries (self.old.frames ++ frame ∷ []) }
        requires here { IsAt bodies.now frame part }
        requires step { summary_step self.old.entries frame.summary part ≡ Ok summary }
        ensures { Moved bodies.now self.old.entries self.new result }
    {
        let Some(position) = frame.position.checked_add(1) else {
            return Err(Fault::NoMemory);
        };
        self.frames.push(Frame {
            ty: frame.ty,
            position,
            summary,
        })?;
        Ok(())
    }

    /// Into the definition of a name.
    fn enter(
        &mut self,
        bodies: &[Option<Items<Part>>],
        frame: Frame,
        number: u32,
        left: usize,
    ) -> Result<(), Fault>
        requires sound { Sound bodies.now self.old.entries (self.old.frames ++ frame ∷ []) }
        requires here { IsAt bodies.now frame (Part.Named number left) }
        requires whole { IsSome (definition bodies.now number) }
        requires fresh { slice_get self.old.entries number ≡ Some Entry.Fresh }
        ensures { Moved bodies.now self.old.entries self.new result }
    {
        self.frames.push(frame)?;
        self.entries.set(number as usize, Entry::Open);
        self.frames.push(Frame {
            ty: number,
            position: 0,
            summary: NO_PARTS,
        })?;
        Ok(())
    }

    /// At a name of which nothing is known yet.
    fn wait(
        &mut self,
        bodies: &[Option<Items<Part>>],
        frame: Frame,
        part: Part,
    ) -> Result<(), Fault>
        requires sound { Sound bodies.now self.old.entries (self.old.frames ++ frame ∷ []) }
        requires here { IsAt bodies.now frame part }
        ensures { Moved bodies.now self.old.entries self.new result }
    {
        let Part::Named(number, left) = part else {
            return Err(Fault::NoMemory);
        };
        if definition(bodies, number as usize).is_none() {
            return Err(Fault::Name(left));
        }
        match self.entries.get(number as usize).copied() {
            Some(Entry::Fresh) => self.enter(bodies, frame, number, left),
            Some(Entry::Open) => Err(Fault::Name(left)),
            _ => Err(Fault::NoMemory),
        }
    }

    fn advance(
        &mut self,
        bodies: &[Option<Items<Part>>],
        frame: Frame,
        part: Part,
    ) -> Result<(), Fault>
        requires sound { Sound bodies.now self.old.entries (self.old.frames ++ frame ∷ []) }
        requires here { IsAt bodies.now frame part }
        ensures { Moved bodies.now self.old.entries self.new result }
    {
        match summary_step(self.entries.as_slice(), frame.summary, part) {
            Ok(summary) => self.pass(bodies, frame, part, summary),
            Err(_) => self.wait(bodies, frame, part),
        }
    }

    fn go_on(&mut self, bodies: &[Option<Items<Part>>], frame: Frame) -> Result<(), Fault>
        requires sound { Sound bodies.now self.old.entries (self.old.frames ++ frame ∷ []) }
        ensures { Moved bodies.now self.old.entries self.new result }
    {
        let Some(body) = definition(bodies, frame.ty as usize) else {
            return Err(Fault::NoMemory);
        };
        match body.get(frame.position) {
            Some(part) => self.advance(bodies, frame, *part),
            None => self.finish(bodies, frame, body),
        }
    }

    /// One part further in the innermost definition; answers whether one was left.
    fn turn(&mut self, bodies: &[Option<Items<Part>>]) -> Result<bool, Fault>
        requires sound { Sound bodies.now self.old.entries self.old.frames }
        ensures { Turned bodies.now self.old.entries self.new result }
    {
        match self.frames.pop() {
            Some(frame) => {
                self.go_on(bodies, frame)?;
                Ok(true)
            }
            None => Ok(false),
        }
    }

    /// To the end of what is gone through.
    fn run(&mut self, bodies: &[Option<Items<Part>>]) -> Result<(), Fault>
        requires sound { Sound bodies.now self.old.entries self.old.frames }
        ensures { Settled bodies.now self.old.entries self.new result }
    {
        for _ in 0..u64::MAX {
            if !self.turn(bodies)? {
                return Ok(());
            }
        }
        Err(Fault::NoMemory)
    }

    /// Into a definition, where nothing else is gone through.
    fn begin(&mut self, bodies: &[Option<Items<Part>>], number: u32) -> Result<(), Fault>
        requires sound { Sound bodies.now self.old.entries self.old.frames }
        requires settled { self.old.frames ≡ [] }
        requires whole { IsSome (definition bodies.now number) }
        requires fresh { slice_get self.old.entries number ≡ Some Entry.Fresh }
        ensures { Started bodies.now number self.old.entries self.new result }
    {
        self.entries.set(number as usize, Entry::Open);
        self.frames.push(Frame {
            ty: number,
            position: 0,
            summary: NO_PARTS,
        })?;
        self.run(bodies)
    }

    /// Makes a type known, if it has a definition.
    fn start(&mut self, bodies: &[Option<Items<Part>>], ty: usize) -> Result<(), Fault>
        requires sound { Sound bodies.now self.old.entries self.old.frames }
        requires settled { self.old.frames ≡ [] }
        ensures { Started bodies.now ty self.old.entries self.new result }
    {
        let Ok(number) = u32::try_from(ty) else {
            return Err(Fault::NoMemory);
        };
        if definition(bodies, ty).is_none() {
            return Ok(());
        }
        match self.entries.get(ty).copied() {
            Some(Entry::Fresh) => self.begin(bodies, number),
            _ => Ok(()),
        }
    }
}

fn untouched(alloc: Global, count: usize) -> Result<Items<Entry>, Fault>
    ensures { Gives (λ all. all) result (Ok (replicate count Entry.Fresh)) }
{
    let entries = vec![in alloc; Entry::Fresh; count]?;
    Ok(Items::from_vec(entries))
}

/// What is known of each named type of a text, by their definitions in order; refused at a name of a type that isn't defined
/// or that holds itself.
pub fn known_types(alloc: Global, bodies: &[Option<Items<Part>>]) -> Result<Items<Entry>, Fault>
    ensures { IsResolution bodies.now result }
{
    let mut resolver = Resolver {
        entries: untouched(alloc, bodies.len())?,
        frames: Items::new(alloc),
    };
    for ty in 0..bodies.len() {
        resolver.start(bodies, ty)?;
    }
    Ok(resolver.entries)
}
