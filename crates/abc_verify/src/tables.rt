ghost use Rattle.std.specs.Prelude.{◌≡◌, ◌||◌, filter, length, ltb, map, not};
ghost use Rattle.abc_verify_typing.specs.Instructions.{operand as operand_in, targets};
ghost use Rattle.abc_verify_typing.specs.Effects.{covers, leads as leads_of};
ghost use Rattle.abc_verify_typing.specs.Rules.{all_below, handler_target, in_table, is_without_catches};
ghost use Rattle.abc_verify_flow.specs.Handled.{IsCoverAt};
ghost use Rattle.abc_verify_states.specs.Frames.{routine_of_frame};
ghost use Rattle.abc_verify.specs.Visits.{here_in};

use crate::visit::Visit;
use abc_file_types::Instr;
use abc_verify_flow::Cover;
use abc_verify_states::{Frame, is_function_method};
use abc_verify_typing::{Catch, Leads, Operand};

/// Whether places are below the code's end.
#[tactic(auto, using(crate::proofs::Loops::below_next, crate::proofs::Loops::below_stops))]
fn are_below(places: &[u32], end: usize) -> bool
    ensures { result ≡ all_below places.now end }
{
    for place in places {
        if *place as usize >= end {
            return false;
        }
    }
    true
}

/// Whether the places that an instruction names are below the code's end.
#[inline(never)]
fn are_targets_below(instr: &Instr, end: usize) -> bool
    ensures { result ≡ all_below (targets instr.now) end }
{
    match instr {
        Instr::Branch(_, target) => (*target as usize) < end,
        Instr::Switch { default, cases } => {
            (*default as usize) < end && are_below(cases.as_slice(), end)
        }
        Instr::Plain(_) => true,
        Instr::One(_, _) => true,
        Instr::Two(_, _, _) => true,
        Instr::Byte(_) => true,
        Instr::Short(_) => true,
        Instr::ScopeObject(_) => true,
        Instr::Debug { .. } => true,
    }
}

/// Whether a handler covers a place.
fn covers_place(handler: &Catch, place: u32) -> bool
    ensures { result ≡ covers place handler.now }
{
    handler.from <= place && place < handler.to
}

/// Whether one of some handlers covers a place.
#[tactic(auto, using(crate::proofs::Loops::uncovered, crate::proofs::Loops::covered))]
fn is_covered(handlers: &[Catch], place: u32) -> bool
    ensures { not result ≡ is_without_catches (filter (covers place) handlers.now) }
{
    for handler in handlers {
        if covers_place(handler, place) {
            return true;
        }
    }
    false
}

/// Whether a handler doesn't cover a place, or its target is below the code's end.
fn is_inside(handler: &Catch, place: u32, end: usize) -> bool
    ensures { result ≡ (not (covers place handler.now) || ltb handler.now.target end) }
{
    !covers_place(handler, place) || (handler.target as usize) < end
}

/// Whether the targets of the handlers that cover a place are below the code's end.
#[tactic(auto, using(crate::proofs::Loops::inside_next, crate::proofs::Loops::inside_stops))]
fn are_handlers_below(handlers: &[Catch], place: u32, end: usize) -> bool
    ensures { result ≡ all_below (map handler_target (filter (covers place) handlers.now)) end }
{
    for handler in handlers {
        if !is_inside(handler, place, end) {
            return false;
        }
    }
    true
}

/// What the rules ask of the handlers of a method that cover a place.
pub(crate) fn cover_at(frame: &Frame<'_>, place: u32) -> Cover
    ensures { IsCoverAt (routine_of_frame frame.now) place result }
{
    let handlers = frame.handlers.as_slice();
    Cover {
        is_empty: !is_covered(handlers, place),
        is_inside: are_handlers_below(handlers, place, frame.code.len()),
    }
}

impl Visit<'_> {
    /// Whether the places that follow are below the code's end.
    #[inline]
    pub(crate) fn leads_inside(&self) -> bool
        ensures { result
            ≡ all_below (leads_of (here_in self.now) self.now.row.leads)
            (length self.now.frame.now.code.now) }
    {
        let end = self.frame.code.len();
        let next = self.place as usize + 1;
        match self.row.leads {
            Leads::Next => next < end,
            Leads::Branches => next < end && are_targets_below(self.instr, end),
            Leads::Jumps => are_targets_below(self.instr, end),
            Leads::Switches => are_targets_below(self.instr, end),
            Leads::Ends => true,
        }
    }

    /// Whether the operand is in its table.
    #[inline]
    pub(crate) fn is_in_table(&self) -> bool
        ensures { result
            ≡ in_table self.now.linked.now (routine_of_frame self.now.frame.now) self.now.row.operand
            (operand_in self.now.instr.now) }
    {
        match self.row.operand {
            Operand::Unnamed => true,
            _ => self.is_named_in_table(),
        }
    }

    /// Whether the operand is in its table, mostly where it names something.
    #[inline(never)]
    fn is_named_in_table(&self) -> bool
        ensures { result
            ≡ in_table self.now.linked.now (routine_of_frame self.now.frame.now) self.now.row.operand
            (operand_in self.now.instr.now) }
    {
        let abc = self.linked.abc();
        let number = self.operand();
        let n = number as usize;
        match self.row.operand {
            Operand::StringAt => n <= abc.strings.len(),
            Operand::IntAt => n <= abc.ints.len(),
            Operand::UintAt => n <= abc.uints.len(),
            Operand::DoubleAt => n <= abc.doubles.len(),
            Operand::NamespaceAt => n > 0 && n <= abc.namespaces.len(),
            Operand::FunctionAt => {
                n < abc.methods.len() && is_function_method(self.linked, number)
            }
            Operand::ClassAt => n < abc.instances.len(),
            Operand::HandlerAt => n < self.frame.handlers.len(),
            Operand::NameAt => n > 0 && n <= abc.names.len(),
            Operand::PlainNameAt => n > 0 && n <= abc.names.len(),
            Operand::TypeAt => n > 0 && n <= abc.names.len(),
            Operand::TypeOrAny => n <= abc.names.len(),
            Operand::Unnamed => true,
            Operand::ScopeAt => true,
        }
    }
}
