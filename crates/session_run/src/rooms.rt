ghost use Rattle.std.specs.Prelude.{ℕ, ◌≡◌, ◌≢◌, slice_get};
ghost use Rattle.script_model.specs.Script.{IsSlot};
ghost use Rattle.session_run.specs.Rooms.{HasRoom};

use script_model::SLOTS;
use session_model::FileEntry;
use std::array;
use turn_lock::Link;

/// For the slots that are open, the room of the entry of their first close.
#[derive(Drop)]
pub(crate) struct CloseRooms {
    links: [Option<Link<FileEntry>>; SLOTS],
}

/// Takes out the room of a slot.
fn taken(links: &mut [Option<Link<FileEntry>>; SLOTS], slot: u32) -> Option<Link<FileEntry>>
    requires { IsSlot slot }
    ensures taken { slice_get links.old slot ≡ Some result }
    ensures others { (k : ℕ) → k ≢ slot → slice_get links.new k ≡ slice_get links.old k }
{
    links[slot as usize].take()
}

impl CloseRooms {
    /// No rooms. It takes no memory.
    pub(crate) fn new() -> CloseRooms {
        CloseRooms {
            links: array::from_fn(|_| None),
        }
    }

    /// Takes out the room of a slot.
    pub(crate) fn take(&mut self, slot: u32) -> Option<Link<FileEntry>>
        requires { IsSlot slot }
        ensures taken { slice_get self.old.links slot ≡ Some result }
        ensures others { (k : ℕ) → k ≢ slot → slice_get self.new.links k ≡ slice_get self.old.links k }
    {
        taken(&mut self.links, slot)
    }

    /// Keeps the room of a slot.
    pub(crate) fn keep(&mut self, slot: u32, link: Link<FileEntry>)
        requires { IsSlot slot }
        ensures kept { HasRoom (slice_get self.new.links slot) }
        ensures others { (k : ℕ) → k ≢ slot → slice_get self.new.links k ≡ slice_get self.old.links k }
    {
        self.links[slot as usize] = Some(link);
    }
}
