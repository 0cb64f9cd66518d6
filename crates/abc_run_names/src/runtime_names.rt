ghost use Rattle.std.specs.Prelude.{◌≡◌, ◌<◌, ◌^◌, ◌∷◌, [], IfOk, MatchOption, if◌then◌else◌};
ghost use Rattle.abc_heap_store.specs.Heap.{Heap};
ghost use Rattle.abc_heap_store.specs.Texts.{IsText};
ghost use Rattle.abc_objects.specs.Stands.{StandsOver};
ghost use Rattle.abc_objects.specs.Values.{Exists};
ghost use Rattle.abc_frames.specs.Frame.{newest};
ghost use Rattle.abc_meaning.specs.Names.{name_by_form, space_of};
ghost use Rattle.abc_run_state.specs.Outer.{Outer, setting_in, world};
ghost use Rattle.abc_run_state.specs.Standing.{IsSet, Stays};
ghost use Rattle.abc_run_state.specs.Stops.{IsOpen, part_outcome};
ghost use Rattle.abc_meaning.specs.Setting.{NoPart, NoSpace, NoText, Setting, Whole, name_form, spaces_for as spaces_named};
ghost use Rattle.abc_run_names.specs.Form.{HasString, HasFormText, name_form_of as form_in, forms_of};
ghost use Rattle.abc_meaning.specs.World.{World};
ghost use Rattle.abc_run_names.specs.Named.{HasNameParts, IsSpaceOrNull, name_form_at, named_here, name_parts_count, parts_for};

use abc_base::HostClass;
use abc_file_types::Multiname;
use abc_heap_values::{Span, Value};
use abc_link::Linked;
use abc_objects::{Name, Spaces};
use abc_run_state::{State, Stop, operand, spell, string_at};

/// What a name of the pool leaves to be taken from the stack.
#[derive(Clone, Copy)]
pub enum Form {
    Whole(Name),
    NoSpace(Span),
    NoText(Spaces),
    NoPart,
}

/// The namespaces of a namespace's index: any, where it is 0.
fn spaces_of(space: u32) -> Spaces
    ensures { result ≡ spaces_named space }
{
    if space == 0 {
        Spaces::Any
    } else {
        Spaces::One(space)
    }
}

/// A form, where the name is no attribute.
fn unless_attribute(attribute: bool, form: Form) -> Option<Form>
    ensures { result ≡ (if attribute then None else Some form) }
{
    if attribute { None } else { Some(form) }
}

/// What one name leaves; attributes and types with parameters are never run.
#[inline(always)]
fn form_of(linked: &Linked, name: &Multiname) -> Option<Form>
    requires { HasString name.now }
    ensures { (out : Outer) → forms_of result ≡ name_form (setting_in linked.now out) name.now }
{
    match name {
        Multiname::QName { attr, ns, name } => {
            let spaces = spaces_of(*ns);
            let text = string_at(linked, *name);
            unless_attribute(*attr, Form::Whole(Name { spaces, text }))
        }
        Multiname::Multi { attr, name, set } => {
            let text = string_at(linked, *name);
            let spaces = Spaces::Set(*set);
            unless_attribute(*attr, Form::Whole(Name { spaces, text }))
        }
        Multiname::Rt { attr, name } => {
            let text = string_at(linked, *name);
            unless_attribute(*attr, Form::NoSpace(text))
        }
        Multiname::MultiL { attr, set } => {
            unless_attribute(*attr, Form::NoText(Spaces::Set(*set)))
        }
        Multiname::RtL { attr } => unless_attribute(*attr, Form::NoPart),
        Multiname::TypeName { .. } => None,
    }
}

/// What the name that an instruction names leaves.
#[inline(always)]
fn form_named(linked: &Linked, name: u32) -> Option<Form>
    ensures { (out : Outer) → forms_of result ≡ name_form_at (setting_in linked.now out) name }
{
    if name == 0 {
        return None;
    }
    linked.linked_law();
    match linked.abc().names.find(name as usize - 1) {
        Some(found) => form_of(linked, found),
        None => None,
    }
}

/// The name of a form of which no part comes at run time.
#[inline(always)]
fn whole_of(form: Form) -> Option<Name>
    ensures { MatchOption result (Unit {0}) (λ x. form_in form ≡ Whole x) }
{
    match form {
        Form::Whole(whole) => Some(whole),
        _ => None,
    }
}

/// The name of an instruction, where no part of it comes at run time.
#[inline(always)]
pub fn whole_name(linked: &Linked, name: u32) -> Option<Name>
    ghost out: { Outer }
    ensures form { MatchOption result (Unit {0})
        (λ x. name_form_at (setting_in linked.now out) name ≡ Some (Whole x)) }
    ensures text { (h : Heap) → MatchOption result (Unit {0}) (λ x. IsText linked.now.file.strings h x.text) }
{
    match form_named(linked, name) {
        Some(form) => whole_of(form),
        None => None,
    }
}

/// The namespaces of a form of which the text alone comes at run time.
#[inline(always)]
fn spaces_in(form: Form) -> Option<Spaces>
    ensures { MatchOption result (Unit {0}) (λ of. form_in form ≡ NoText of) }
{
    match form {
        Form::NoText(spaces) => Some(spaces),
        _ => None,
    }
}

/// The namespaces of the name of an instruction, where its text alone comes at run time.
#[inline(always)]
pub fn late_text(linked: &Linked, name: u32) -> Option<Spaces>
    ghost out: { Outer }
    ensures { MatchOption result (Unit {0})
        (λ of. name_form_at (setting_in linked.now out) name ≡ Some (NoText of)) }
{
    match form_named(linked, name) {
        Some(form) => spaces_in(form),
        None => None,
    }
}

/// So many parts, where the name is no attribute.
fn parts_unless(attribute: bool, parts: u32) -> u32
    ensures { result ≡ (if attribute then 0 else parts) }
{
    if attribute { 0 } else { parts }
}

/// How many parts a name takes at run time, by what it is.
#[inline(always)]
fn parts_in(name: &Multiname) -> u32
    ensures { (p : Setting) → result ≡ name_parts_count (name_form p name.now) }
{
    match name {
        Multiname::QName { .. } => 0,
        Multiname::Multi { .. } => 0,
        Multiname::Rt { attr, .. } => parts_unless(*attr, 1),
        Multiname::MultiL { attr, .. } => parts_unless(*attr, 1),
        Multiname::RtL { attr } => parts_unless(*attr, 2),
        Multiname::TypeName { .. } => 0,
    }
}

/// How many parts a name takes at run time.
#[inline(always)]
pub fn parts_of(linked: &Linked, name: u32) -> u32
    ensures { (out : Outer) → result ≡ name_parts_count (name_form_at (setting_in linked.now out) name) }
{
    if name == 0 {
        return 0;
    }
    match linked.abc().names.find(name as usize - 1) {
        Some(found) => parts_in(found),
        None => 0,
    }
}

/// The namespace that comes at run time; null throws.
fn space_in(v: Value) -> Result<Spaces, Stop>
    requires { IsSpaceOrNull v }
    ensures { (w : World) → space_of v w ≡ part_outcome result w }
{
    match v {
        Value::Space(n) => Ok(Spaces::One(n)),
        Value::Null => Err(Stop::Errs(HostClass::TypeError)),
        Value::Undefined => unreachable!(),
        Value::Num(_) => unreachable!(),
        Value::Bool(_) => unreachable!(),
        Value::Text(_) => unreachable!(),
        Value::Obj(_) => unreachable!(),
    }
}

/// A name whose namespace comes at run time.
fn with_space(text: Span, space: Value) -> Result<Name, Stop>
    requires { IsSpaceOrNull space }
    ensures text { IfOk result (λ n. n.text ≡ text) }
    ensures part { (p : Setting) (w : World)
        → name_by_form p (Some (NoSpace text)) (space ∷ []) w ≡ part_outcome result w }
{
    let spaces = space_in(space)?;
    Ok(Name { spaces, text })
}

/// A name whose text comes at run time.
#[inline(always)]
pub fn with_text(linked: &Linked, s: &mut State, spaces: Spaces, text: Value) -> Result<Name, Stop>
    ghost out: { Outer }
    requires over { StandsOver linked.now s.old.arena }
    requires text { Exists linked.now s.old.arena text }
    ensures part { name_by_form (setting_in linked.now out) (Some (NoText spaces)) (text ∷ [])
        (world s.old out) ≡ part_outcome result (world s.new out) }
    ensures stays { Stays linked.now s.old s.new }
    ensures there { IfOk result (λ n. IsText linked.now.file.strings s.new.arena n.text) }
{
    let text = spell(linked, s, text)?;
    Ok(Name { spaces, text })
}

/// A name of which both come at run time: the text is made before the namespace is asked.
fn with_both(linked: &Linked, s: &mut State, text: Value, space: Value) -> Result<Name, Stop>
    ghost out: { Outer }
    requires over { StandsOver linked.now s.old.arena }
    requires text { Exists linked.now s.old.arena text }
    requires free { IsOpen
        (name_by_form (setting_in linked.now out) (Some NoPart) (text ∷ space ∷ []) (world s.old out)) }
    ensures part { name_by_form (setting_in linked.now out) (Some NoPart) (text ∷ space ∷ [])
        (world s.old out) ≡ part_outcome result (world s.new out) }
    ensures stays { Stays linked.now s.old s.new }
    ensures there { IfOk result (λ n. IsText linked.now.file.strings s.new.arena n.text) }
{
    let text = spell(linked, s, text)?;
    let spaces = space_in(space)?;
    Ok(Name { spaces, text })
}

/// The name of a form, whose parts of run time stand under so many operands.
#[inline(always)]
fn name_from(linked: &Linked, s: &mut State, form: Form, above: u32) -> Result<Name, Stop>
    ghost out: { Outer }
    requires set { IsSet linked.now s.old }
    requires above { above < 2 ^ 30 }
    requires text { HasFormText linked.now.file.strings s.old.arena (Some (form_in form)) }
    requires parts { HasNameParts (Some (form_in form)) above (newest s.old.frames) }
    requires free { IsOpen (name_by_form (setting_in linked.now out) (Some (form_in form))
        (parts_for (Some (form_in form)) above (newest s.old.frames)) (world s.old out)) }
    ensures part { name_by_form (setting_in linked.now out) (Some (form_in form))
        (parts_for (Some (form_in form)) above (newest s.old.frames)) (world s.old out)
        ≡ part_outcome result (world s.new out) }
    ensures stays { Stays linked.now s.old s.new }
    ensures there { IfOk result (λ n. IsText linked.now.file.strings s.new.arena n.text) }
{
    match form {
        Form::Whole(name) => Ok(name),
        Form::NoSpace(text) => {
            let space = operand(&s.frames, above);
            with_space(text, space)
        }
        Form::NoText(spaces) => {
            let text = operand(&s.frames, above);
            with_text(linked, s, spaces, text)
        }
        Form::NoPart => {
            let text = operand(&s.frames, above);
            let space = operand(&s.frames, above + 1);
            with_both(linked, s, text, space)
        }
    }
}

/// The name of an instruction, whose parts of run time stand under so many operands.
#[inline(always)]
pub fn name_of(linked: &Linked, s: &mut State, name: u32, above: u32) -> Result<Name, Stop>
    ghost out: { Outer }
    requires set { IsSet linked.now s.old }
    requires above { above < 2 ^ 30 }
    requires parts { HasNameParts (name_form_at (setting_in linked.now out) name) above
        (newest s.old.frames) }
    requires free { IsOpen
        (named_here (setting_in linked.now out) name above (newest s.old.frames) (world s.old out)) }
    ensures part { named_here (setting_in linked.now out) name above (newest s.old.frames) (world s.old out)
        ≡ part_outcome result (world s.new out) }
    ensures stays { Stays linked.now s.old s.new }
    ensures there { IfOk result (λ n. IsText linked.now.file.strings s.new.arena n.text) }
{
    match form_named(linked, name) {
        Some(form) => name_from(linked, s, form, above),
        None => unreachable!(),
    }
}
