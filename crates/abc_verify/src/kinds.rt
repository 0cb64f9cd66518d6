ghost use Rattle.std.specs.Prelude.{◌≡◌, ◌<◌, ◌^◌, drop, flat_map, slice_get};
ghost use Rattle.abc_verify_typing.specs.Table.{needs};
ghost use Rattle.abc_verify_states.specs.Needs.{parts_of};
ghost use Rattle.abc_verify_typing.specs.Effects.{catch_object, kind_at as kind_in, kind_of_source, needs as needs_of, receiver_kind as receiver_of, scope_of, stack_below, parts_of_need};
ghost use Rattle.abc_verify.specs.Asking.{IsAsked};
ghost use Rattle.abc_verify.specs.Visits.{here_in, kind_at_need as picked_by};

use crate::visit::{Asked, Visit, need_count};
use abc_base::Table;
use abc_link_names::{Kind, Part};
use abc_verify_states::{Parts, fixed_kind, kind_of_slot, kind_of_sum, nullable_kind, type_or_any};
use abc_verify_typing::{Catch, Need, RowKind, Scope, Source, Stack, State, Takes, local_of};

/// The kind at a place; any kind where the list ends before it.
pub(crate) fn kind_at(kinds: &Table<Kind>, place: u32) -> Kind
    ensures { result ≡ kind_in kinds.now place }
{
    match kinds.fetch(place as usize) {
        Some(kind) => kind,
        None => Kind::Any,
    }
}

/// The kind of the scope at a place; any kind where there is none.
fn scope_at(scopes: &Table<Scope>, place: u32) -> Kind
    ensures { result ≡ scope_of (slice_get scopes.now place) }
{
    match scopes.fetch(place as usize) {
        Some(scope) => scope.kind,
        None => Kind::Any,
    }
}

/// The kind of the catch object of the handler at a place; any kind where there is none.
fn catch_kind(handlers: &Table<Catch>, place: u32) -> Kind
    ensures { result ≡ catch_object (slice_get handlers.now place) }
{
    match handlers.fetch(place as usize) {
        Some(handler) => Kind::Obj(handler.layout),
        None => Kind::Any,
    }
}

/// The kind of the value at a need that asks for a slot, or else of one that stands below.
fn picked(need: Need, here: Kind, below: Kind) -> Kind
    ensures { result ≡ picked_by need here below }
{
    match need {
        Need::Slotted => here,
        _ => below,
    }
}

/// The kind of the value, from so deep on, that has to have the slot; any kind where none has to.
#[inline(never)]
#[tactic(auto, using(crate::proofs::Asking::one_receiver, crate::proofs::Asking::two_receiver, crate::proofs::Asking::three_receiver))]
fn receiver_at(takes: Takes, parts: Parts, stack: &Stack<Kind>, at: usize) -> Kind
    requires { at < 2 ^ 40 }
    ensures { result
        ≡ receiver_of (flat_map (parts_of_need (parts_of parts)) (needs takes)) (drop at stack.now) }
{
    match takes {
        Takes::Nothing => Kind::Any,
        Takes::One(a) => picked(a, stack.get_or(at, Kind::Any), Kind::Any),
        Takes::Two(a, b) => {
            let next = at + need_count(a, parts);
            let below = picked(b, stack.get_or(next, Kind::Any), Kind::Any);
            picked(a, stack.get_or(at, Kind::Any), below)
        }
        Takes::Three(a, b, c) => {
            let next = at + need_count(a, parts);
            let last = next + need_count(b, parts);
            let lowest = picked(c, stack.get_or(last, Kind::Any), Kind::Any);
            let below = picked(b, stack.get_or(next, Kind::Any), lowest);
            picked(a, stack.get_or(at, Kind::Any), below)
        }
    }
}

impl Visit<'_> {
    /// The kind of the value so deep below the arguments; any kind where there is none.
    #[inline]
    #[tactic(auto, using(crate::proofs::Asking::taken_at))]
    pub(crate) fn taken(&self, asked: &Asked, state: &State, depth: u8) -> Kind
        requires { IsAsked (here_in self.now) asked.now }
        ensures { result ≡ kind_in (stack_below (here_in self.now) state.now) depth }
    {
        state.stack.get_or(asked.args + depth as usize, Kind::Any)
    }

    /// The kind of the value that has to have the slot; any kind where none has to.
    #[inline]
    #[tactic(auto, using(crate::proofs::Plain::plain_receiver, crate::proofs::Plain::asked_receiver))]
    pub(crate) fn receiver(&self, asked: &Asked, state: &State) -> Kind
        requires { IsAsked (here_in self.now) asked.now }
        ensures { result
            ≡ receiver_of (needs_of (here_in self.now)) (stack_below (here_in self.now) state.now) }
    {
        if asked.is_plain {
            return Kind::Any;
        }
        receiver_at(self.row.takes, asked.parts, &state.stack, asked.args)
    }

    /// The kind that comes from a source. Mostly it is one of a few, which take no look into tables.
    #[inline(always)]
    pub(crate) fn kind_of(&self, asked: &Asked, state: &State, source: Source) -> Kind
        requires { IsAsked (here_in self.now) asked.now }
        ensures { result ≡ kind_of_source (here_in self.now) state.now source }
    {
        match source {
            Source::Fixed(RowKind::Any) => Kind::Any,
            Source::Fixed(RowKind::Num) => Kind::Num,
            Source::Fixed(RowKind::Bool) => Kind::Bool,
            Source::Fixed(RowKind::Text) => Kind::Text,
            Source::Taken(depth) => self.taken(asked, state, depth),
            Source::LocalKind => kind_at(&state.locals, local_of(self.instr)),
            _ => self.kind_found(asked, state, source),
        }
    }

    /// The kind that comes from a source.
    #[inline(never)]
    pub(crate) fn kind_found(&self, asked: &Asked, state: &State, source: Source) -> Kind
        requires { IsAsked (here_in self.now) asked.now }
        ensures { result ≡ kind_of_source (here_in self.now) state.now source }
    {
        match source {
            Source::Fixed(kind) => fixed_kind(self.linked, kind),
            Source::Taken(depth) => self.taken(asked, state, depth),
            Source::LocalKind => kind_at(&state.locals, local_of(self.instr)),
            Source::ScopeKind => scope_at(&state.scopes, self.operand()),
            Source::SlotKind => kind_of_slot(
                self.linked,
                self.operand(),
                self.receiver(asked, state),
            ),
            Source::SumKind => kind_of_sum(
                self.taken(asked, state, 1),
                self.taken(asked, state, 0),
            ),
            Source::TypeKind => type_or_any(self.linked, self.operand()),
            Source::AsTypeKind => nullable_kind(type_or_any(self.linked, self.operand())),
            Source::ActivationKind => Kind::Obj(self.frame.activation),
            Source::ClassObjectKind => {
                Kind::Obj(self.linked.layout_of(Part::ClassObject(self.operand())))
            }
            Source::CatchObjectKind => catch_kind(&self.frame.handlers, self.operand()),
        }
    }
}
