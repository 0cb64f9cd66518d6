ghost use Rattle.std.specs.Prelude.{◌≡◌};
ghost use Rattle.std.specs.List.{find};
ghost use Rattle.abc_link_names.specs.PartsByNumber.{body_at};
ghost use Rattle.abc_objects.specs.Stands.{StandsOver};
ghost use Rattle.abc_objects.specs.Values.{Exists};
ghost use Rattle.abc_run_finish.specs.Handling.{handler_catches as catches_so, target_of_handler};

use abc_file_types::Handler;
use abc_frames::Handlers;
use abc_heap_values::Value;
use abc_link::Linked;
use abc_objects::Arena;
use abc_ops::is_of;
use std::marker::Model;

/// The handlers of a file's methods, for a value that is thrown.
#[derive(Drop)]
pub(crate) struct HandlersFor<'a> {
    linked: &'a Linked,
    arena: &'a Arena,
    value: Value,
}

impl<'a> Model for HandlersFor<'a> {
    ghost use Rattle.abc_run_finish.specs.Handling.{Held};
    ghost use Rattle.abc_objects.specs.Stands.{StandsOver};
    ghost use Rattle.abc_objects.specs.Values.{Exists};

    ghost Value = { Held };

    ghost view = { λ h. record { linked = h.linked.now; heap = h.arena.now; value = h.value } };

    ghost invariant = { λ h. StandsOver h.linked.now h.arena.now × Exists h.linked.now h.arena.now h.value };
}

impl<'a> HandlersFor<'a> {
    /// The handlers of a file, for a value that is thrown.
    pub fn new(linked: &'a Linked, arena: &'a Arena, value: Value) -> HandlersFor<'a>
        requires over { StandsOver linked.now arena.now }
        requires there { Exists linked.now arena.now value }
        ensures { result ≡ record { linked = linked.now; heap = arena.now; value = value } }
    {
        HandlersFor {
            linked,
            arena,
            value,
        }
    }

    /// Whether a handler catches the value at a place.
    fn catches(&self, handler: Handler, place: u32) -> bool
        ensures { result ≡ catches_so self.now.linked self.now.heap self.now.value place handler }
    {
        if handler.from > place || place >= handler.to {
            return false;
        }
        match self.linked.type_of(handler.exc_type) {
            Some(ty) => is_of(self.linked, self.arena, ty, self.value),
            None => false,
        }
    }

    /// Where the first of some handlers that catches the value goes on.
    fn first(&self, handlers: &[Handler], place: u32) -> Option<u32>
        ensures { result
            ≡ target_of_handler
            (find (catches_so self.now.linked self.now.heap self.now.value place) handlers.now) }
    {
        for handler in handlers {
            if self.catches(*handler, place) {
                return Some(handler.target);
            }
        }
        None
    }
}

/// The handlers of a body.
#[tactic(auto, using(abc_base::proofs::Past::past_end))]
fn handlers_of(linked: &Linked, body: u32) -> &[Handler]
    ensures { result.now ≡ (body_at linked.now.file body).handlers }
{
    match linked.abc().bodies.find(body as usize) {
        Some(body) => body.handlers.as_slice(),
        None => &[],
    }
}

impl Handlers for HandlersFor<'_> {
    ghost use Rattle.abc_run_finish.specs.Handling.{target_for_value};

    ghost targets = { λ h. target_for_value h.linked h.heap h.value };

    fn target(&self, method: u32, place: u32) -> Option<u32> {
        match self.linked.body_of(method) {
            Some(body) => self.first(handlers_of(self.linked, body), place),
            None => None,
        }
    }
}
