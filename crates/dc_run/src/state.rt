// What a run reads and changes, and how it leaves statements.
ghost use Rattle.std.specs.Prelude.{◌≡◌, IfOk};
ghost use Rattle.dc_run.specs.Part.{goes_on as goes_on_at, is_return as is_return_at, end_of};
ghost use Rattle.dc_world.specs.Report.{end_view};

use dc_memory::Store;
use dc_text::Name;
use dc_world::End;
use std::alloc::{AllocError, Global};

/// What a function reads and changes: the memory, its objects (newest last), and how many steps are left.
#[derive(Drop)]
pub struct State {
    pub memory: Store,
    pub locals: Vec<u64>,
    pub left: u64,
}

/// How statements are left: at their end, by a return, or since the run ended or was cut.
#[derive(Drop)]
pub enum Flow {
    Normal,
    Returned(Option<i128>),
    Ended(End),
    Cut,
}

impl Flow {
    /// Whether the next statement follows.
    pub fn goes_on(&self) -> bool
        ensures { result ≡ goes_on_at self.now }
    {
        matches!(self, Flow::Normal)
    }

    /// Whether a function is left by a return.
    pub fn is_return(&self) -> bool
        ensures { result ≡ is_return_at self.now }
    {
        matches!(self, Flow::Returned(_))
    }

    /// The end of a whole run that is left so.
    pub fn end(self) -> End
        ensures { end_view result ≡ end_of self }
    {
        match self {
            Flow::Normal => End::Returned(None),
            Flow::Returned(result) => End::Returned(result),
            Flow::Ended(end) => end,
            Flow::Cut => End::Cut,
        }
    }
}

/// The end of a run that came to something without meaning in the function of this name.
pub fn undefined(alloc: Global, name: &[u8]) -> Result<Flow, AllocError>
    ensures { IfOk result (λ flow. flow ≡ Flow.Ended (End.Undefined name.now)) }
{
    let name = Name::copied(alloc, name)?;
    Ok(Flow::Ended(End::Undefined(name)))
}
