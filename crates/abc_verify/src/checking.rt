ghost use Rattle.std.specs.Prelude.{◌≡◌, ◌<◌, ◌^◌, Some, MatchResult, length};
ghost use Rattle.abc_verify_states.specs.Frames.{routine_of_frame};
ghost use Rattle.abc_link_names.specs.Linked.{IsLinkedFile};
ghost use Rattle.abc_link_names.specs.Owners.{body_of as body_of_method};
ghost use Rattle.abc_verify_typing.specs.Routines.{routine};
ghost use Rattle.abc_verify_typing.specs.Typing.{HasTyping};
ghost use Rattle.abc_verify_flow.specs.Walking.{RefusedBy};
ghost use Rattle.abc_verify.specs.VerifyRefusing.{IsVerifyRefusal, refused_of};
ghost use Rattle.abc_verify.specs.Typed.{AllTyped, AreTyped, IsTyped, IsVerified};

use crate::checked::Verified;
use crate::flowing::Flowing;
use crate::verify_error::VerifyError;
use abc_base::release;
use abc_link::Linked;
use abc_verify_flow::{Memory, Refusal, check_flow};
use abc_verify_states::{Frame, frame_of, heads_of};
use std::alloc::Global;

/// Verifies a body with its method.
fn check_frame(
    alloc: Global,
    linked: &Linked,
    memory: &mut Memory,
    frame: &Frame<'_>,
) -> Result<(), Refusal>
    requires linked { IsLinkedFile linked.now }
    requires short { length frame.now.code.now < 2 ^ 31 }
    ensures { MatchResult result (λ _. HasTyping linked.now (routine_of_frame frame.now))
        (λ e. RefusedBy linked.now (routine_of_frame frame.now) e) }
{
    let code = frame.code.as_slice();
    let handlers = frame.handlers.as_slice();
    let heads = heads_of(alloc, code, handlers)?;
    let flow = Flowing {
        alloc,
        linked,
        frame,
        heads: &heads,
    };
    check_flow(&flow, memory)?;
    Ok(())
}

/// Verifies a body.
fn check_body(alloc: Global, linked: &Linked, memory: &mut Memory, body: u32) -> Result<(), Refusal>
    requires linked { IsLinkedFile linked.now }
    requires inside { body < length linked.now.file.bodies }
    ensures { MatchResult result (λ _. HasTyping linked.now (routine linked.now body))
        (λ e. RefusedBy linked.now (routine linked.now body) e) }
{
    let frame = frame_of(alloc, linked, body)?;
    check_frame(alloc, linked, memory, &frame)
}

/// The refusal of a method with this body.
fn refusal_of(method: u32, body: u32, refusal: Refusal) -> VerifyError
    ensures { result ≡ refused_of method body refusal }
{
    match refusal {
        Refusal::Refused(index, rule) => VerifyError::Refused {
            method,
            body,
            index,
            rule,
        },
        Refusal::NoMemory => VerifyError::NoMemory,
    }
}

/// Verifies a method that has this body, where those before have typings.
fn check_numbered(
    alloc: Global,
    linked: &Linked,
    memory: &mut Memory,
    method: u32,
    body: u32,
) -> Result<(), VerifyError>
    requires linked { IsLinkedFile linked.now }
    requires inside { method < length linked.now.file.methods }
    requires before { AreTyped linked.now method }
    requires of_method { body_of_method linked.now.file method ≡ Some body }
    ensures { MatchResult result (λ _. IsTyped linked.now method) (IsVerifyRefusal linked.now) }
{
    match check_body(alloc, linked, memory, body) {
        Ok(()) => Ok(()),
        Err(refusal) => Err(refusal_of(method, body, refusal)),
    }
}

/// Verifies a method, if it has a body, where those before have typings.
fn check_method(
    alloc: Global,
    linked: &Linked,
    memory: &mut Memory,
    method: u32,
) -> Result<(), VerifyError>
    requires linked { IsLinkedFile linked.now }
    requires inside { method < length linked.now.file.methods }
    requires before { AreTyped linked.now method }
    ensures { MatchResult result (λ _. IsTyped linked.now method) (IsVerifyRefusal linked.now) }
{
    match linked.body_of(method) {
        Some(body) => check_numbered(alloc, linked, memory, method, body),
        None => Ok(()),
    }
}

/// Verifies all methods, in the order of their numbers.
fn check_methods(
    alloc: Global,
    linked: &Linked,
    memory: &mut Memory,
    count: u32,
) -> Result<(), VerifyError>
    requires linked { IsLinkedFile linked.now }
    requires all { count ≡ length linked.now.file.methods }
    ensures { MatchResult result (λ _. IsVerified linked.now) (IsVerifyRefusal linked.now) }
{
    for method in 0..count {
        check_method(alloc, linked, memory, method)?;
    }
    Ok(())
}

/// Verifies all methods of a linked file.
fn check_file(alloc: Global, linked: &Linked, count: u32) -> Result<(), VerifyError>
    requires linked { IsLinkedFile linked.now }
    requires all { count ≡ length linked.now.file.methods }
    ensures { MatchResult result (λ _. IsVerified linked.now) (IsVerifyRefusal linked.now) }
{
    let mut memory = Memory::new(alloc);
    let checked = check_methods(alloc, linked, &mut memory, count);
    release(memory);
    checked
}

/// How many methods a file has.
fn method_count(linked: &Linked) -> u32
    requires { IsLinkedFile linked.now }
    ensures { result ≡ length linked.now.file.methods }
{
    linked.abc().methods.len() as u32
}

/// Verifies all methods that have bodies, in the order of their numbers, and so every body of the file. It answers
/// [`VerifyError::Refused`] exactly where a method's body has no typing, with the first such method, and
/// [`VerifyError::NoMemory`] where memory runs out.
pub fn verify(alloc: Global, linked: Linked) -> Result<Verified, VerifyError>
    ensures { MatchResult result (λ v. (v ≡ linked) × IsVerified linked × AllTyped linked)
        (IsVerifyRefusal linked) }
{
    linked.linked_law();
    let count = method_count(&linked);
    match check_file(alloc, &linked, count) {
        Ok(()) => Ok(Verified::of(linked)),
        Err(error) => {
            release(linked);
            Err(error)
        }
    }
}
