ghost use Rattle.std.specs.Prelude.{◌≡◌, ◌∷◌, [], ◌<◌, ◌^◌, drop, flat_map};
ghost use Rattle.abc_verify_typing.specs.Table.{needs};
ghost use Rattle.abc_verify_typing.specs.Effects.{needs as needs_of, stack_below, parts_of_need};
ghost use Rattle.abc_verify_typing.specs.Rules.{all_suit, suits};
ghost use Rattle.abc_verify_states.specs.Needs.{parts_of};
ghost use Rattle.abc_verify.specs.Asking.{IsAsked};
ghost use Rattle.abc_verify.specs.Visits.{here_in};

use crate::visit::{Asked, Visit, need_count};
use abc_link_names::Kind;
use abc_verify_states::{
    Parts, is_instance_kind, is_namespace_kind, is_number_kind, is_object_kind, kind_has_slot,
    layout_of_super,
};
use abc_verify_typing::{Need, Stack, State, Takes, VerifyRule};

impl Visit<'_> {
    /// Whether a value is what a rule asks.
    fn value_suits(&self, rule: VerifyRule, need: Need, kind: Kind) -> bool
        ensures { result ≡ suits (here_in self.now) rule need kind }
    {
        match (rule, need) {
            (VerifyRule::NotSpace, Need::Namespace) => is_namespace_kind(kind),
            (VerifyRule::NotObject, Need::Slotted) => is_object_kind(kind),
            (VerifyRule::NotObject, Need::Instance) => is_instance_kind(
                self.linked,
                layout_of_super(self.row.site, self.frame.home),
                kind,
            ),
            (VerifyRule::SlotIndex, Need::Slotted) => {
                kind_has_slot(self.linked, self.operand(), kind)
            }
            (VerifyRule::NotIndex, Need::Index) => is_number_kind(kind),
            _ => true,
        }
    }

    /// Whether the value so deep, if there is one, is what a rule asks.
    #[tactic(auto, using(crate::proofs::Asking::one_there, crate::proofs::Asking::one_gone))]
    fn one_suits(&self, rule: VerifyRule, need: Need, stack: &Stack<Kind>, at: usize) -> bool
        ensures { result ≡ all_suit (here_in self.now) rule (need ∷ []) (drop at stack.now) }
    {
        if at < stack.len() {
            self.value_suits(rule, need, stack.get_or(at, Kind::Any))
        } else {
            true
        }
    }

    /// Whether the parts of a name, from so deep on, are what a rule asks.
    fn parts_suit(&self, rule: VerifyRule, parts: Parts, stack: &Stack<Kind>, at: usize) -> bool
        requires { at < 2 ^ 48 }
        ensures { result ≡ all_suit (here_in self.now) rule (parts_of parts) (drop at stack.now) }
    {
        match (parts.name, parts.space) {
            (true, true) => {
                self.one_suits(rule, Need::Value, stack, at)
                    && self.one_suits(rule, Need::Namespace, stack, at + 1)
            }
            (true, false) => self.one_suits(rule, Need::Value, stack, at),
            (false, true) => self.one_suits(rule, Need::Namespace, stack, at),
            (false, false) => true,
        }
    }

    /// Whether the values of a need, from so deep on, are what a rule asks.
    fn need_suits(
        &self,
        rule: VerifyRule,
        need: Need,
        parts: Parts,
        stack: &Stack<Kind>,
        at: usize,
    ) -> bool
        requires { at < 2 ^ 48 }
        ensures { result
            ≡ all_suit (here_in self.now) rule (parts_of_need (parts_of parts) need) (drop at stack.now) }
    {
        match need {
            Need::Runtime => self.parts_suit(rule, parts, stack, at),
            Need::Value => self.one_suits(rule, Need::Value, stack, at),
            Need::Namespace => self.one_suits(rule, Need::Namespace, stack, at),
            Need::Index => self.one_suits(rule, Need::Index, stack, at),
            Need::Slotted => self.one_suits(rule, Need::Slotted, stack, at),
            Need::Instance => self.one_suits(rule, Need::Instance, stack, at),
        }
    }

    /// Whether the values of two needs, from so deep on, are what a rule asks.
    fn two_suit(
        &self,
        rule: VerifyRule,
        a: Need,
        b: Need,
        parts: Parts,
        stack: &Stack<Kind>,
        at: usize,
    ) -> bool
        requires { at < 2 ^ 44 }
        ensures { result
            ≡ all_suit (here_in self.now) rule (flat_map (parts_of_need (parts_of parts)) (a ∷ b ∷ []))
            (drop at stack.now) }
    {
        let next = at + need_count(a, parts);
        self.need_suits(rule, a, parts, stack, at) && self.need_suits(rule, b, parts, stack, next)
    }

    /// Whether the values of needs, from so deep on, are what a rule asks.
    #[inline(never)]
    #[tactic(auto, using(crate::proofs::Asking::one_suits))]
    fn takes_suit(
        &self,
        rule: VerifyRule,
        takes: Takes,
        parts: Parts,
        stack: &Stack<Kind>,
        at: usize,
    ) -> bool
        requires { at < 2 ^ 40 }
        ensures { result
            ≡ all_suit (here_in self.now) rule (flat_map (parts_of_need (parts_of parts)) (needs takes))
            (drop at stack.now) }
    {
        match takes {
            Takes::Nothing => true,
            Takes::One(a) => self.need_suits(rule, a, parts, stack, at),
            Takes::Two(a, b) => self.two_suit(rule, a, b, parts, stack, at),
            Takes::Three(a, b, c) => {
                let next = at + need_count(a, parts);
                self.need_suits(rule, a, parts, stack, at)
                    && self.two_suit(rule, b, c, parts, stack, next)
            }
        }
    }

    /// Whether the values that are taken are what a rule asks.
    #[inline]
    #[tactic(auto, using(crate::proofs::Plain::plain_suits, crate::proofs::Plain::asked_suits))]
    pub(crate) fn all_suit(&self, asked: &Asked, rule: VerifyRule, state: &State) -> bool
        requires { IsAsked (here_in self.now) asked.now }
        ensures { result
            ≡ all_suit (here_in self.now) rule (needs_of (here_in self.now))
            (stack_below (here_in self.now) state.now) }
    {
        if asked.is_plain {
            return true;
        }
        self.takes_suit(rule, self.row.takes, asked.parts, &state.stack, asked.args)
    }
}
