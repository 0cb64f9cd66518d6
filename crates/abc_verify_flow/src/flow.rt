use crate::handled::Cover;
use crate::step::{Merged, Trial};
use abc_base::NoMemory;
use abc_file_types::Instr;
use abc_link_names::Kind;
use abc_verify_typing::{Catch, State, VerifyRule};
use std::alloc::Global;

/// What the instructions of a method do to states.
pub trait Flow {
    ghost use Rattle.std.specs.Prelude.{◌≡◌, Bool, IfOk, List, MatchOption, None, Some, length, slice_get};
    ghost use Rattle.abc_link_names.specs.Kinds.{IsJoin};
    ghost use Rattle.abc_link_names.specs.Linked.{IsLinkedFile, LinkedFile};
    ghost use Rattle.abc_verify_typing.specs.Routines.{Routine};
    ghost use Rattle.abc_verify_typing.specs.Rules.{broken_early};
    ghost use Rattle.abc_verify_typing.specs.Typing.{entry};
    ghost use Rattle.abc_verify_flow.specs.Handled.{IsCoverAt};
    ghost use Rattle.abc_verify_flow.specs.Walking.{IsTriedAt, MergesTo, is_head};

    ghost file: { Self → LinkedFile };

    ghost routine: { Self → Routine };

    ghost heads: { Self → List Bool };

    fn alloc(&self) -> Global;

    /// How many instructions there are.
    fn len(&self) -> usize
        ensures { result ≡ length (routine self.now).code };

    /// The instruction at a place, or `None` where the code ends before it.
    fn instr(&self, place: u32) -> Option<&Instr>
        ensures { MatchOption result (slice_get (routine self.now).code place ≡ None)
            (λ i. slice_get (routine self.now).code place ≡ Some i.now) };

    fn handlers(&self) -> &[Catch]
        ensures { result.now ≡ (routine self.now).handlers };

    /// Whether a walk begins at a place.
    fn is_head(&self, place: u32) -> bool
        ensures { result ≡ is_head (heads self.now) place };

    /// The first rule before Merge that a state breaks.
    fn broken_early(&self, place: u32, state: &State) -> Option<VerifyRule>
        ensures { result ≡ broken_early (file self.now) (routine self.now) place state.now };

    /// Does the instruction at a place to a state, if that breaks no rule there; of the handlers that cover the place this is what
    /// the rules ask. Where memory runs out the state is of no use.
    fn advance(&self, place: u32, state: &mut State, cover: Cover) -> Result<Trial, NoMemory>
        requires linked { IsLinkedFile (file self.now) }
        requires cover { IsCoverAt (routine self.now) place cover }
        ensures { IfOk result (IsTriedAt (file self.now) (routine self.now) place state.old state.new) };

    /// The state that a method begins with.
    fn entry(&self) -> Result<State, NoMemory>
        ensures { IfOk result (λ s. s ≡ entry (routine self.now)) };

    /// The least kind above both.
    fn join(&self, a: Kind, b: Kind) -> Kind
        requires { IsLinkedFile (file self.now) }
        ensures { IsJoin (file self.now) a b result };

    /// Two states of one place together. The least state above both, where it is neither, takes the place of another, whose memory
    /// is used again.
    fn merge(&self, old: &State, next: &State, joined: &mut State) -> Result<Merged, NoMemory>
        requires { IsLinkedFile (file self.now) }
        ensures { IfOk result (λ m. MergesTo (file self.now) old.now next.now joined.new m) };
}
