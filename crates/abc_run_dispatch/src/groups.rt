ghost use Rattle.std.specs.Prelude.{◌≡◌, ◌<◌, ◌≤◌, true};
ghost use Rattle.abc_run_dispatch.specs.StepGroups.{alone_ops, first_alone_ops, last_alone_ops, numbered_ops, ops_alone, ops_numbered, ops_paired, paired_ops, second_alone_ops};
ghost use Rattle.abc_file_types.specs.Opcodes.{is_in};
ghost use Rattle.abc_file_types.specs.declared.op.TheConstants.{SETPROPERTY};

use abc_file_types::op;

/// The groups of opcodes that stand alone.
#[derive(Clone, Copy)]
pub(crate) enum Alone {
    Control,
    Walk,
    Push,
    Return,
    Scope,
    Convert,
    Late,
    Single,
    Double,
    Comparison,
    Local,
}

/// The groups of opcodes with one number.
#[derive(Clone, Copy)]
pub(crate) enum Numbered {
    Super,
    Constant,
    New,
    Call,
    Construct,
    Class,
    Find,
    Property,
    Slot,
    Typed,
    Count,
}

/// The groups of opcodes with two numbers.
#[derive(Clone, Copy)]
pub(crate) enum Paired {
    Next,
    SuperCall,
    PropertyCall,
    Construct,
}

/// The group of an opcode below `convert_s`. (An arm for each opcode makes a table of the groups.)
#[inline(always)]
fn first_alone(op: u8) -> Alone
    requires { is_in op first_alone_ops ≡ true }
    ensures { is_in op (ops_alone result) ≡ true }
{
    match op {
        op::NOP => Alone::Control,
        op::THROW => Alone::Control,
        op::LABEL => Alone::Control,
        op::PUSHWITH => Alone::Control,
        op::POPSCOPE => Alone::Control,
        op::NEXTNAME => Alone::Walk,
        op::HASNEXT => Alone::Walk,
        op::NEXTVALUE => Alone::Walk,
        op::PUSHSCOPE => Alone::Control,
        op::RETURNVOID => Alone::Return,
        op::RETURNVALUE => Alone::Return,
        op::NEWACTIVATION => Alone::Scope,
        op::GETGLOBALSCOPE => Alone::Scope,
        _ => Alone::Push,
    }
}

/// The group of an opcode from `convert_s` on, below `add`.
#[inline(always)]
fn second_alone(op: u8) -> Alone
    requires { is_in op second_alone_ops ≡ true }
    ensures { is_in op (ops_alone result) ≡ true }
{
    match op {
        op::ASTYPELATE => Alone::Late,
        op::NEGATE => Alone::Single,
        op::INCREMENT => Alone::Single,
        op::DECREMENT => Alone::Single,
        op::TYPEOF => Alone::Single,
        op::NOT => Alone::Single,
        op::BITNOT => Alone::Single,
        _ => Alone::Convert,
    }
}

/// The group of an opcode from `add` on.
#[inline(always)]
fn last_alone(op: u8) -> Alone
    requires { is_in op last_alone_ops ≡ true }
    ensures { is_in op (ops_alone result) ≡ true }
{
    match op {
        op::EQUALS => Alone::Comparison,
        op::STRICTEQUALS => Alone::Comparison,
        op::LESSTHAN => Alone::Comparison,
        op::LESSEQUALS => Alone::Comparison,
        op::GREATERTHAN => Alone::Comparison,
        op::GREATEREQUALS => Alone::Comparison,
        op::INSTANCEOF => Alone::Late,
        op::ISTYPELATE => Alone::Late,
        op::IN => Alone::Late,
        op::INCREMENT_I => Alone::Single,
        op::DECREMENT_I => Alone::Single,
        op::NEGATE_I => Alone::Single,
        op::GETLOCAL_0 => Alone::Local,
        op::GETLOCAL_1 => Alone::Local,
        op::GETLOCAL_2 => Alone::Local,
        op::GETLOCAL_3 => Alone::Local,
        op::SETLOCAL_0 => Alone::Local,
        op::SETLOCAL_1 => Alone::Local,
        op::SETLOCAL_2 => Alone::Local,
        op::SETLOCAL_3 => Alone::Local,
        _ => Alone::Double,
    }
}

/// The group of an opcode that stands alone.
#[inline(always)]
pub(crate) fn group_alone(op: u8) -> Alone
    requires { is_in op alone_ops ≡ true }
    ensures { is_in op (ops_alone result) ≡ true }
{
    if op < op::ADD {
        if op < op::CONVERT_S {
            first_alone(op)
        } else {
            second_alone(op)
        }
    } else {
        last_alone(op)
    }
}

/// The group of an opcode with one number, below `setproperty`.
#[inline(always)]
fn first_numbered(op: u8) -> Numbered
    requires among { is_in op numbered_ops ≡ true }
    requires below { op < SETPROPERTY }
    ensures { is_in op (ops_numbered result) ≡ true }
{
    match op {
        op::GETSUPER => Numbered::Super,
        op::SETSUPER => Numbered::Super,
        op::NEWFUNCTION => Numbered::New,
        op::CALL => Numbered::Call,
        op::CONSTRUCT => Numbered::Construct,
        op::CONSTRUCTSUPER => Numbered::Super,
        op::NEWOBJECT => Numbered::New,
        op::NEWARRAY => Numbered::New,
        op::NEWCLASS => Numbered::Class,
        op::NEWCATCH => Numbered::New,
        op::FINDPROPSTRICT => Numbered::Find,
        op::FINDPROPERTY => Numbered::Find,
        op::GETLEX => Numbered::Find,
        _ => Numbered::Constant,
    }
}

/// The group of an opcode with one number, from `setproperty` on.
#[inline(always)]
fn last_numbered(op: u8) -> Numbered
    requires among { is_in op numbered_ops ≡ true }
    requires from { SETPROPERTY ≤ op }
    ensures { is_in op (ops_numbered result) ≡ true }
{
    match op {
        op::SETPROPERTY => Numbered::Property,
        op::GETPROPERTY => Numbered::Property,
        op::INITPROPERTY => Numbered::Property,
        op::DELETEPROPERTY => Numbered::Property,
        op::GETSLOT => Numbered::Slot,
        op::SETSLOT => Numbered::Slot,
        op::COERCE => Numbered::Typed,
        op::ASTYPE => Numbered::Typed,
        op::INCLOCAL => Numbered::Count,
        op::DECLOCAL => Numbered::Count,
        op::ISTYPE => Numbered::Typed,
        op::INCLOCAL_I => Numbered::Count,
        op::DECLOCAL_I => Numbered::Count,
        _ => Numbered::Constant,
    }
}

/// The group of an opcode with one number.
#[inline(always)]
pub(crate) fn group_numbered(op: u8) -> Numbered
    requires { is_in op numbered_ops ≡ true }
    ensures { is_in op (ops_numbered result) ≡ true }
{
    if op < op::SETPROPERTY {
        first_numbered(op)
    } else {
        last_numbered(op)
    }
}

/// The group of an opcode with two numbers.
#[inline(always)]
pub(crate) fn group_paired(op: u8) -> Paired
    requires { is_in op paired_ops ≡ true }
    ensures { is_in op (ops_paired result) ≡ true }
{
    match op {
        op::HASNEXT2 => Paired::Next,
        op::CONSTRUCTPROP => Paired::Construct,
        op::CALLPROPERTY | op::CALLPROPLEX | op::CALLPROPVOID => Paired::PropertyCall,
        _ => Paired::SuperCall,
    }
}
