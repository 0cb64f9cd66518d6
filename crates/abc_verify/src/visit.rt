ghost use Rattle.std.specs.Prelude.{◌≡◌, ◌<◌, ◌*◌, ◌^◌, ◌≤◌, ◌∷◌, [], IfSome, flat_map, length};
ghost use Rattle.std.specs.Bool.{OnFalse, OnTrue};
ghost use Rattle.abc_verify_typing.specs.Instructions.{operand as operand_in};
ghost use Rattle.abc_verify_typing.specs.Table.{needs};
ghost use Rattle.abc_verify_typing.specs.Effects.{args as args_of, needs as needs_of, parts_of_need};
ghost use Rattle.abc_verify_states.specs.Needs.{parts_of};
ghost use Rattle.abc_verify.specs.Asking.{AreClosed, AreValues, HasValues, IsAsked};
ghost use Rattle.abc_verify.specs.Visits.{here_in};

use abc_file_types::Instr;
use abc_link::Linked;
use abc_verify_states::{Frame, Parts, parts_of_name};
use abc_verify_typing::{Need, Row, Takes, arguments_of, operand_of};

/// An instruction at its place in a method, with its row.
#[derive(Clone, Copy)]
pub(crate) struct Visit<'a> {
    pub linked: &'a Linked,
    pub frame: &'a Frame<'a>,
    pub place: u32,
    pub instr: &'a Instr,
    pub row: Row,
}

/// What is worked out once of an instruction at its place.
#[derive(Clone, Copy)]
pub(crate) struct Asked {
    /// The parts that the name takes at run time; none where no need is for them.
    pub parts: Parts,
    /// Whether each value that is taken may be any. (Behind the parts: at the end it would leave seven bytes of padding, which are copied in two moves that overlap.)
    pub is_plain: bool,
    /// How many arguments stand on top of what the row takes.
    pub args: usize,
    /// How many values are taken.
    pub depth: usize,
}

/// How many parts a name takes.
fn part_count(parts: Parts) -> usize
    ensures count { result ≡ length (parts_of parts) }
    ensures few { result ≤ 2 }
{
    match (parts.name, parts.space) {
        (true, true) => 2,
        (true, false) => 1,
        (false, true) => 1,
        (false, false) => 0,
    }
}

/// How many values a need takes.
pub(crate) fn need_count(need: Need, parts: Parts) -> usize
    ensures count { result ≡ length (parts_of_need (parts_of parts) need) }
    ensures few { result ≤ 2 }
{
    match need {
        Need::Runtime => part_count(parts),
        Need::Value => 1,
        Need::Namespace => 1,
        Need::Index => 1,
        Need::Slotted => 1,
        Need::Instance => 1,
    }
}

/// How many values needs take.
#[inline(never)]
#[tactic(auto, using(crate::proofs::Asking::one_count, crate::proofs::Asking::two_count, crate::proofs::Asking::three_count))]
fn takes_count(takes: Takes, parts: Parts) -> usize
    ensures count { result ≡ length (flat_map (parts_of_need (parts_of parts)) (needs takes)) }
    ensures few { result ≤ 6 }
{
    match takes {
        Takes::Nothing => 0,
        Takes::One(a) => need_count(a, parts),
        Takes::Two(a, b) => need_count(a, parts) + need_count(b, parts),
        Takes::Three(a, b, c) => {
            need_count(a, parts) + need_count(b, parts) + need_count(c, parts)
        }
    }
}

/// Whether a need is for the parts of a name.
fn is_opened_need(need: Need) -> bool
    ensures { OnFalse result (AreClosed (need ∷ [])) }
{
    match need {
        Need::Runtime => true,
        Need::Value => false,
        Need::Namespace => false,
        Need::Index => false,
        Need::Slotted => false,
        Need::Instance => false,
    }
}

/// Whether one of two needs is for the parts of a name.
#[tactic(auto, using(crate::proofs::Plain::more_closed))]
fn are_opened_two(a: Need, b: Need) -> bool
    ensures { OnFalse result (AreClosed (a ∷ b ∷ [])) }
{
    is_opened_need(a) || is_opened_need(b)
}

/// Whether one of three needs is for the parts of a name.
#[tactic(auto, using(crate::proofs::Plain::more_closed))]
fn are_opened_three(a: Need, b: Need, c: Need) -> bool
    ensures { OnFalse result (AreClosed (a ∷ b ∷ c ∷ [])) }
{
    is_opened_need(a) || are_opened_two(b, c)
}

/// Whether one of the needs is for the parts of a name.
fn are_opened(takes: Takes) -> bool
    ensures { OnFalse result (AreClosed (needs takes)) }
{
    match takes {
        Takes::Nothing => false,
        Takes::One(a) => is_opened_need(a),
        Takes::Two(a, b) => are_opened_two(a, b),
        Takes::Three(a, b, c) => are_opened_three(a, b, c),
    }
}

/// Whether the values of a need may be any.
#[tactic(auto, using(crate::proofs::Plain::parts_plain))]
fn is_plain_need(need: Need, parts: Parts) -> bool
    ensures { OnTrue result (AreValues (parts_of_need (parts_of parts) need)) }
{
    match need {
        Need::Value => true,
        Need::Runtime => !parts.space,
        Need::Namespace => false,
        Need::Index => false,
        Need::Slotted => false,
        Need::Instance => false,
    }
}

/// Whether the values of two needs may be any.
#[tactic(auto, using(crate::proofs::Plain::two_plain))]
fn are_plain_two(a: Need, b: Need, parts: Parts) -> bool
    ensures { OnTrue result (AreValues (flat_map (parts_of_need (parts_of parts)) (a ∷ b ∷ []))) }
{
    is_plain_need(a, parts) && is_plain_need(b, parts)
}

/// Whether the values of three needs may be any.
#[tactic(auto, using(crate::proofs::Plain::three_plain))]
fn are_plain_three(a: Need, b: Need, c: Need, parts: Parts) -> bool
    ensures { OnTrue result (AreValues (flat_map (parts_of_need (parts_of parts)) (a ∷ b ∷ c ∷ []))) }
{
    is_plain_need(a, parts) && are_plain_two(b, c, parts)
}

/// Whether the values of needs may be any.
#[inline(never)]
#[tactic(auto, using(crate::proofs::Plain::one_plain))]
fn are_plain(takes: Takes, parts: Parts) -> bool
    ensures { OnTrue result (AreValues (flat_map (parts_of_need (parts_of parts)) (needs takes))) }
{
    match takes {
        Takes::Nothing => true,
        Takes::One(a) => is_plain_need(a, parts),
        Takes::Two(a, b) => are_plain_two(a, b, parts),
        Takes::Three(a, b, c) => are_plain_three(a, b, c, parts),
    }
}

/// How many values are taken, where each may be any; `None` where something is asked of one, or the parts of a name are taken.
#[inline]
fn values_in(takes: Takes) -> Option<usize>
    ensures { IfSome result (HasValues (needs takes)) }
{
    match takes {
        Takes::Nothing => Some(0),
        Takes::One(Need::Value) => Some(1),
        Takes::Two(Need::Value, Need::Value) => Some(2),
        _ => None,
    }
}

/// What a row takes for each argument, times the arguments.
#[tactic(auto, using(crate::proofs::Asking::product_fits))]
fn product(factor: u8, count: u32) -> usize
    ensures product { result ≡ factor * count }
    ensures fits { result < 2 ^ 40 }
{
    factor as usize * count as usize
}

impl Visit<'_> {
    /// The number that the instruction has.
    pub(crate) fn operand(&self) -> u32
        ensures { result ≡ operand_in self.now.instr.now }
    {
        operand_of(self.instr)
    }

    /// The parts that the name takes at run time; none where no need is for them.
    #[inline]
    #[tactic(auto, using(crate::proofs::Plain::closed_parts, crate::proofs::Plain::named_parts))]
    fn parts(&self) -> Parts
        ensures { flat_map (parts_of_need (parts_of result)) (needs self.now.row.takes)
            ≡ needs_of (here_in self.now) }
    {
        if are_opened(self.row.takes) {
            return parts_of_name(self.linked, self.operand());
        }
        Parts {
            name: false,
            space: false,
        }
    }

    /// How many arguments stand on top of what the row takes.
    #[inline]
    fn args(&self) -> usize
        ensures args { result ≡ args_of (here_in self.now) }
        ensures fits { result < 2 ^ 40 }
    {
        if self.row.args == 0 {
            return 0;
        }
        product(self.row.args, arguments_of(self.instr))
    }

    /// What is asked where the parts of a name may make a difference.
    #[inline(always)]
    #[tactic(auto, using(crate::proofs::Plain::asked_is))]
    fn asked_of_name(&self) -> Asked
        ensures { IsAsked (here_in self.now) result }
    {
        let parts = self.parts();
        let args = self.args();
        let count = takes_count(self.row.takes, parts);
        let is_plain = are_plain(self.row.takes, parts);
        Asked {
            parts,
            args,
            depth: args + count,
            is_plain,
        }
    }

    /// What is asked where so many values are taken, each of which may be any.
    #[inline]
    #[tactic(auto, using(crate::proofs::Plain::values_asked))]
    fn asked_of_values(&self, count: usize) -> Asked
        requires { HasValues (needs self.now.row.takes) count }
        ensures { IsAsked (here_in self.now) result }
    {
        let args = self.args();
        Asked {
            parts: Parts {
                name: false,
                space: false,
            },
            args,
            depth: args + count,
            is_plain: true,
        }
    }

    /// What the rules and the step ask of the instruction. Mostly what is taken may be any.
    #[inline(always)]
    pub(crate) fn asked(&self) -> Asked
        ensures { IsAsked (here_in self.now) result }
    {
        match values_in(self.row.takes) {
            Some(count) => self.asked_of_values(count),
            None => self.asked_of_name(),
        }
    }
}
