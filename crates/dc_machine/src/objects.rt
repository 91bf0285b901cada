// The instructions that make objects and free them.
ghost use Rattle.std.specs.Prelude.{◌≡◌, ◌<◌, ◌^◌, List, ℕ, IfOk, IfSome, Some, [], pos, suc, length};
ghost use Rattle.dc_core.specs.View.{term_view};
ghost use Rattle.dc_goto.specs.Acts.{Next, act, allocating, creating, first_bytes as first_drawn, freeing, with_register};
ghost use Rattle.dc_goto.specs.Program as plain;
ghost use Rattle.dc_goto.specs.Program.{GotoProgram};
ghost use Rattle.dc_goto.specs.Values.{is_heap_start as starts_heap};
ghost use Rattle.dc_machine.specs.Creating.{created};
ghost use Rattle.dc_machine.specs.Step.{IsAlone, IsStep, acting};
ghost use Rattle.dc_machine.specs.View.{now_view};
ghost use Rattle.dc_memory.specs.Places.{start_of};
ghost use Rattle.dc_memory.specs.declared.object.ObjKind.TheVariants.{Heap};
ghost use Rattle.dc_world.specs.Drawing.{IsDrawing};
ghost use Rattle.dc_world.specs.Told.{supply};
ghost use Rattle.dc_world.specs.Log.{hearing};
ghost use Rattle.dc_world.specs.View.{kind_view};

use crate::act::undefined;
use crate::now::Now;
use crate::write::unless;
use dc_choice::{Chooser, Watch};
use dc_core::{NumKind, Term};
use dc_goto::Bytes;
use dc_memory::{Store, object_number};
use dc_num::bits;
use dc_text::Event;
use dc_value::{is_heap_start, start};
use dc_world::{End, Fresh, Log, Storage, Which, add, draw, draw_bytes, let_die};
use std::alloc::{AllocError, Global};

// The first bytes of an object: zero, or each of them drawn.
fn first_bytes<C: Chooser, W: Watch>(
    alloc: Global,
    bytes: Bytes,
    size: u64,
    chooser: &mut C,
    used: &mut Vec<u64>,
    watch: &mut W,
    log: &mut Log,
) -> Result<Option<Vec<u8>>, AllocError>
    ensures { IsDrawing (λ bytes. bytes.items) (first_drawn bytes size) result
        (supply (C.left chooser.old) (C.given chooser.old) (C.dry chooser.old) used.old.items)
        (supply (C.left chooser.new) (C.given chooser.new) (C.dry chooser.new) used.new.items)
        (hearing (W.records watch.old) (W.parts watch.old) log.old)
        (hearing (W.records watch.new) (W.parts watch.new) log.new) }
{
    match bytes {
        Bytes::Zero => {
            let mut zeros = Vec::new(alloc);
            zeros.resize(size as usize, 0)?;
            Ok(Some(zeros))
        }
        Bytes::Chosen => draw_bytes(alloc, size, chooser, used, watch, log),
    }
}

// A new object behind the others, and its number. One that may not be added, since there are too many or it has more than
// 16,777,216 bytes, is answered as want of memory.
fn create<C: Chooser, W: Watch>(
    alloc: Global,
    memory: &mut Store,
    storage: Storage,
    bytes: Bytes,
    size: u64,
    chooser: &mut C,
    used: &mut Vec<u64>,
    watch: &mut W,
    log: &mut Log,
) -> Result<Option<u64>, AllocError>
    ensures drawn { IsDrawing (λ number. memory.new) (created (kind_view storage) bytes size memory.old) result
        (supply (C.left chooser.old) (C.given chooser.old) (C.dry chooser.old) used.old.items)
        (supply (C.left chooser.new) (C.given chooser.new) (C.dry chooser.new) used.new.items)
        (hearing (W.records watch.old) (W.parts watch.old) log.old)
        (hearing (W.records watch.new) (W.parts watch.new) log.new) }
    ensures number { IfOk result (λ o. IfSome o (λ number. number ≡ suc (length memory.old))) }
    ensures small { IfOk result (λ o. IfSome o (λ number. number < 2 ^ 63)) }
{
    if size > 16777216 {
        return Err(AllocError);
    }
    let number = memory.count() + 1;
    log.tell(watch, Event::Create(number));
    let Some(values) = first_bytes(alloc, bytes, size, chooser, used, watch, log)? else {
        return Ok(None);
    };
    add(memory, Fresh::Live(storage, values))?;
    Ok(Some(number))
}

impl Now {
    /// A stack object of so many bytes, its start in the register.
    pub fn local<C: Chooser, W: Watch>(
        &mut self,
        alloc: Global,
        register: u64,
        size: u64,
        bytes: Bytes,
        chooser: &mut C,
        used: &mut Vec<u64>,
        watch: &mut W,
        log: &mut Log,
    ) -> Result<Option<End>, AllocError>
        ensures { (p : GotoProgram) (name : List ℕ) →
            IsStep acting (λ choices. act p name (plain.Local register size bytes) (now_view self.old choices)) (now_view self.new) result
            (supply (C.left chooser.old) (C.given chooser.old) (C.dry chooser.old) used.old.items)
            (supply (C.left chooser.new) (C.given chooser.new) (C.dry chooser.new) used.new.items)
            (hearing (W.records watch.old) (W.parts watch.old) log.old)
            (hearing (W.records watch.new) (W.parts watch.new) log.new) }
    {
        if self.is_full() {
            return Ok(Some(End::Limit(Which::Objects)));
        }
        self.locals.try_reserve(1)?;
        let made = create(
            alloc,
            &mut self.memory,
            Storage::Stack,
            bytes,
            size,
            chooser,
            used,
            watch,
            log,
        )?;
        let Some(number) = made else {
            return Ok(Some(End::ChoicesEnded));
        };
        self.locals.push_reserved(number);
        self.put(register, Some(start(number)))?;
        Ok(None)
    }

    // A heap object of so many bytes, its start in the register.
    fn create_heap<C: Chooser, W: Watch>(
        &mut self,
        alloc: Global,
        register: u64,
        size: u64,
        bytes: Bytes,
        chooser: &mut C,
        used: &mut Vec<u64>,
        watch: &mut W,
        log: &mut Log,
    ) -> Result<Option<End>, AllocError>
        ensures { IsStep acting
            (λ choices. creating Heap bytes size (now_view self.old choices) (λ object t. Next [] (with_register register (Some (pos (start_of object))) t)))
            (now_view self.new) result
            (supply (C.left chooser.old) (C.given chooser.old) (C.dry chooser.old) used.old.items)
            (supply (C.left chooser.new) (C.given chooser.new) (C.dry chooser.new) used.new.items)
            (hearing (W.records watch.old) (W.parts watch.old) log.old)
            (hearing (W.records watch.new) (W.parts watch.new) log.new) }
    {
        if self.is_full() {
            return Ok(Some(End::Limit(Which::Objects)));
        }
        let made = create(
            alloc,
            &mut self.memory,
            Storage::Heap,
            bytes,
            size,
            chooser,
            used,
            watch,
            log,
        )?;
        let Some(number) = made else {
            return Ok(Some(End::ChoicesEnded));
        };
        self.put(register, Some(start(number)))?;
        Ok(None)
    }

    // A heap object of so many bytes, or none, its start or null in the register.
    fn allocate_size<C: Chooser, W: Watch>(
        &mut self,
        alloc: Global,
        register: u64,
        size: u128,
        bytes: Bytes,
        chooser: &mut C,
        used: &mut Vec<u64>,
        watch: &mut W,
        log: &mut Log,
    ) -> Result<Option<End>, AllocError>
        ensures { IsStep acting (λ choices. allocating register bytes size (now_view self.old choices)) (now_view self.new) result
            (supply (C.left chooser.old) (C.given chooser.old) (C.dry chooser.old) used.old.items)
            (supply (C.left chooser.new) (C.given chooser.new) (C.dry chooser.new) used.new.items)
            (hearing (W.records watch.old) (W.parts watch.old) log.old)
            (hearing (W.records watch.new) (W.parts watch.new) log.new) }
    {
        if size > 16777216 {
            self.put(register, Some(0))?;
            return Ok(None);
        }
        match draw(2, chooser, used, watch, log)? {
            None => Ok(Some(End::ChoicesEnded)),
            Some(0) => {
                self.put(register, Some(0))?;
                Ok(None)
            }
            Some(_) => self.create_heap(
                alloc,
                register,
                size as u64,
                bytes,
                chooser,
                used,
                watch,
                log,
            ),
        }
    }

    /// A heap object of as many bytes as the product, or none, its start or null in the register.
    pub fn allocate<C: Chooser, W: Watch>(
        &mut self,
        alloc: Global,
        name: &[u8],
        register: u64,
        count: &Term,
        size: &Term,
        bytes: Bytes,
        chooser: &mut C,
        used: &mut Vec<u64>,
        watch: &mut W,
        log: &mut Log,
    ) -> Result<Option<End>, AllocError>
        ensures { (p : GotoProgram) →
            IsStep acting (λ choices. act p name.now (plain.Alloc register (term_view count.now) (term_view size.now) bytes) (now_view self.old choices)) (now_view self.new) result
            (supply (C.left chooser.old) (C.given chooser.old) (C.dry chooser.old) used.old.items)
            (supply (C.left chooser.new) (C.given chooser.new) (C.dry chooser.new) used.new.items)
            (hearing (W.records watch.old) (W.parts watch.old) log.old)
            (hearing (W.records watch.new) (W.parts watch.new) log.new) }
    {
        let Some((count, size)) = self.given_two(count, size)? else {
            return undefined(alloc, name);
        };
        let count = bits(NumKind::U64, count);
        let size = bits(NumKind::U64, size);
        let product = count as u128 * size as u128;
        self.allocate_size(alloc, register, product, bytes, chooser, used, watch, log)
    }

    // A heap object dies, and is noted as freed.
    fn free_at<W: Watch>(
        &mut self,
        alloc: Global,
        name: &[u8],
        pointer: u64,
        watch: &mut W,
        log: &mut Log,
    ) -> Result<Option<End>, AllocError>
        ensures { IsAlone acting
            (λ choices. freeing name.now pointer (starts_heap self.old.memory pointer) (now_view self.old choices))
            (now_view self.new) result
            (hearing (W.records watch.old) (W.parts watch.old) log.old)
            (hearing (W.records watch.new) (W.parts watch.new) log.new) }
    {
        if !is_heap_start(&self.memory, pointer) {
            return unless(alloc, name, pointer == 0);
        }
        let object = object_number(pointer);
        self.sets.note_freed(object)?;
        let_die(&mut self.memory, object);
        log.tell(watch, Event::Free(object));
        Ok(None)
    }

    /// A heap object dies, and is noted as freed.
    pub fn free<W: Watch>(
        &mut self,
        alloc: Global,
        name: &[u8],
        pointer: &Term,
        watch: &mut W,
        log: &mut Log,
    ) -> Result<Option<End>, AllocError>
        ensures { (p : GotoProgram) →
            IsAlone acting (λ choices. act p name.now (plain.Free (term_view pointer.now)) (now_view self.old choices)) (now_view self.new) result
            (hearing (W.records watch.old) (W.parts watch.old) log.old)
            (hearing (W.records watch.new) (W.parts watch.new) log.new) }
    {
        match self.asked(pointer)? {
            None => undefined(alloc, name),
            Some(pointer) => self.free_at(alloc, name, bits(NumKind::Ptr, pointer), watch, log),
        }
    }
}
