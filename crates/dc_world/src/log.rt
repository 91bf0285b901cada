// What a run tells of what happens.
ghost use Rattle.std.specs.Prelude.{◌≡◌, [], ◌∷◌, ◌++◌, OnOk, OnErr};
ghost use Rattle.dc_core.specs.Run.{checked};
ghost use Rattle.dc_text.specs.Counted.{no_counts};
ghost use Rattle.dc_world.specs.Told.{happens, meant, told};
ghost use Rattle.dc_world.specs.Log.{hearing};

use dc_choice::Watch;
use dc_text::{Counts, Event, Name, Names};
use std::alloc::{AllocError, Global};

/// How often each event happened, and the names that failed, in order.
#[derive(Debug, Drop)]
pub struct Log {
    pub counts: Counts,
    pub failed: Names,
}

impl Log {
    /// A log of nothing. It takes no memory.
    pub fn new(alloc: Global) -> Log
        ensures counts { result.counts ≡ no_counts }
        ensures failed { result.failed ≡ [] }
    {
        Log {
            counts: Counts::new(),
            failed: Names::new(alloc),
        }
    }

    /// Tells a watch of an event and counts it.
    pub fn tell<W: Watch>(&mut self, watch: &mut W, event: Event)
        ensures { hearing (W.records watch.new) (W.parts watch.new) self.new
            ≡ happens (meant event) (hearing (W.records watch.old) (W.parts watch.old) self.old) }
    {
        self.counts.hear(&event);
        watch.hear(&event);
    }

    /// Tells of a test that a name belongs to, and notes the name as failed where it didn't hold.
    pub fn check<W: Watch>(
        &mut self,
        alloc: Global,
        watch: &mut W,
        name: &[u8],
        held: bool,
    ) -> Result<(), AllocError>
        ensures ok { OnOk result (hearing (W.records watch.new) (W.parts watch.new) self.new
            ≡ told (checked name.now held) (hearing (W.records watch.old) (W.parts watch.old) self.old)) }
        ensures refused { OnErr result (hearing (W.records watch.new) (W.parts watch.new) self.new
            ≡ hearing (W.records watch.old) (W.parts watch.old) self.old) }
    {
        if !held {
            self.fail(alloc, name)?;
        }
        self.tell(watch, Event::Check(held));
        Ok(())
    }

    /// Notes a name as failed.
    pub fn fail(&mut self, alloc: Global, name: &[u8]) -> Result<(), AllocError>
        ensures failed { OnOk result (self.new.failed ≡ self.old.failed ++ name.now ∷ []) }
        ensures refused { OnErr result (self.new.failed ≡ self.old.failed) }
        ensures counts { self.new.counts ≡ self.old.counts }
    {
        let name = Name::copied(alloc, name)?;
        self.failed.push(name)
    }
}
