ghost use Rattle.std.specs.Prelude.{◌≡◌, ◌<◌, ◌≤◌, ◌^◌, ◌∷◌, [], map, codes, IfOk, OnOk};
ghost use Rattle.std.specs.List.{range_with_len};
ghost use Rattle.abc_file_types.specs.Files.{Fits};
ghost use Rattle.abc_cli_answers.specs.Generated.{first_body, function_body, generated_body, function_name as name_of, function_signature, function_trait as trait_of, generated_file, one_to, public_name, public_space, generated_script, signature as signature_of, generated_texts as all_texts};

use crate::codes::{drawn_code_of, first_code};
use crate::draws::Draws;
use abc_base::{Bytes, NoMemory, Table};
use abc_file_types::{
    Abc, Body, Instr, Method, Multiname, Namespace, NsKind, Script, TraitBody, TraitInfo,
};
use itoa::Buffer;
use std::alloc::Global;

/// Puts the name of a function, in place of what the list has.
fn put_name(function: u32, name: &mut Vec<u8>) -> Result<(), NoMemory>
    ensures { OnOk result (name.new.items ≡ name_of function) }
{
    let mut buffer = Buffer::new();
    name.clear();
    name.extend_from_slice(b"f")?;
    name.extend_from_slice(buffer.format(function).as_bytes())?;
    Ok(())
}

/// The name of a function. The memory of the list in which it is put together serves one name after the other.
fn function_name(alloc: Global, function: u32, name: &mut Vec<u8>) -> Result<Bytes, NoMemory>
    ensures { IfOk result (λ name. name ≡ name_of function) }
{
    put_name(function, name)?;
    Bytes::from_slice(alloc, name)
}

/// The pool of strings.
fn texts(alloc: Global, functions: u32) -> Result<Table<Bytes>, NoMemory>
    requires { functions < 2 ^ 30 }
    ensures { IfOk result (λ texts. texts ≡ all_texts functions) }
{
    let mut texts = Table::with_capacity(alloc, functions as usize + 2)?;
    texts.push(Bytes::from_slice(alloc, b"trace")?)?;
    texts.push(Bytes::from_slice(alloc, b"int")?)?;
    let mut name = Vec::new(alloc);
    for function in 0..functions {
        texts.push(function_name(alloc, function + 1, &mut name)?)?;
    }
    Ok(texts)
}

/// The pool of names: one for each string.
fn names(alloc: Global, count: u32) -> Result<Table<Multiname>, NoMemory>
    requires { count < 2 ^ 30 }
    ensures { IfOk result (λ names. names ≡ map public_name (one_to count)) }
{
    let mut names = Table::with_capacity(alloc, count as usize)?;
    for string in 0..count {
        names.push(Multiname::QName {
            attr: false,
            ns: 1,
            name: string + 1,
        })?;
    }
    Ok(names)
}

/// A signature without a name.
fn signature(alloc: Global, ret: u32, params: Table<u32>) -> Method
    ensures { result ≡ signature_of ret params }
{
    Method {
        ret,
        params,
        name: 0,
        flags: 0,
        options: Table::new(alloc),
        param_names: Table::new(alloc),
    }
}

/// The signatures: that of the script, and of each function of an int that gives an int.
fn signatures(alloc: Global, functions: u32) -> Result<Table<Method>, NoMemory>
    requires { functions < 2 ^ 30 }
    ensures { IfOk result
        (λ methods. methods ≡ signature_of 0 [] ∷ map function_signature (one_to functions)) }
{
    let mut methods = Table::with_capacity(alloc, functions as usize + 1)?;
    methods.push(signature(alloc, 0, Table::new(alloc)))?;
    for function in 0..functions {
        let params = Table::from_slice(alloc, &[2])?;
        methods.push(signature(alloc, 2, params))?;
    }
    Ok(methods)
}

/// The traits of the script: its functions by their names.
fn function_traits(alloc: Global, functions: u32) -> Result<Table<TraitInfo>, NoMemory>
    requires { functions < 2 ^ 30 }
    ensures { IfOk result (λ traits. traits ≡ map trait_of (one_to functions)) }
{
    let mut traits = Table::with_capacity(alloc, functions as usize)?;
    for function in 0..functions {
        traits.push(TraitInfo {
            name: function + 3,
            attrs: 0,
            body: TraitBody::Method {
                disp: 0,
                method: function + 1,
            },
            metadata: Table::new(alloc),
        })?;
    }
    Ok(traits)
}

/// A body without handlers and traits whose operands are at most two.
fn body(method: u32, local_count: u32, max_scope: u32, code: Table<Instr>, alloc: Global) -> Body
    ensures { result ≡ generated_body method local_count max_scope code }
{
    Body {
        method,
        max_stack: 2,
        local_count,
        init_scope: 0,
        max_scope,
        code,
        handlers: Table::new(alloc),
        traits: Table::new(alloc),
    }
}

/// The bodies, in the order of their methods.
fn bodies(alloc: Global, seed: u32, functions: u32) -> Result<Table<Body>, NoMemory>
    requires { functions < 2 ^ 30 }
    ensures { IfOk result
        (λ bodies. bodies ≡ first_body functions ∷ map (function_body seed) (one_to functions)) }
{
    let mut bodies = Table::with_capacity(alloc, functions as usize + 1)?;
    bodies.push(body(0, 2, 1, first_code(alloc, functions)?, alloc))?;
    let mut draws = Draws { number: seed };
    let mut gathering = Table::new(alloc);
    for function in 0..functions {
        let code = drawn_code_of(alloc, &mut draws, &mut gathering)?;
        bodies.push(body(function + 1, 3, 0, code, alloc))?;
    }
    Ok(bodies)
}

/// The pool of namespaces: the public one.
fn namespaces(alloc: Global) -> Result<Table<Namespace>, NoMemory>
    ensures { IfOk result (λ spaces. spaces ≡ public_space ∷ []) }
{
    let mut namespaces = Table::new(alloc);
    namespaces.push(Namespace {
        kind: NsKind::Package,
        name: 0,
    })?;
    Ok(namespaces)
}

/// The one script, with its functions.
fn scripts(alloc: Global, functions: u32) -> Result<Table<Script>, NoMemory>
    requires { functions < 2 ^ 30 }
    ensures { IfOk result (λ scripts. scripts ≡ generated_script functions ∷ []) }
{
    let mut scripts = Table::new(alloc);
    let traits = function_traits(alloc, functions)?;
    scripts.push(Script { init: 0, traits })?;
    Ok(scripts)
}

/// The file of so many functions whose operations are drawn from a seed.
fn made(alloc: Global, seed: u32, methods: u32) -> Result<Abc, NoMemory>
    requires { methods < 2 ^ 29 }
    ensures { IfOk result (λ abc. abc ≡ generated_file seed methods) }
{
    let strings = texts(alloc, methods)?;
    let namespaces = namespaces(alloc)?;
    let names = names(alloc, methods + 2)?;
    let signatures = signatures(alloc, methods)?;
    let scripts = scripts(alloc, methods)?;
    let bodies = bodies(alloc, seed, methods)?;
    Ok(Abc {
        strings,
        namespaces,
        names,
        methods: signatures,
        scripts,
        bodies,
        ..Abc::new(alloc)
    })
}

/// The file of so many functions, 1 to 10,000, whose operations are drawn from a seed: a script that calls them one after
/// the other, each with what the one before gave, and traces what the last gave. An Err is want of memory.
pub fn make_abc(alloc: Global, seed: u32, methods: u32) -> Result<Abc, NoMemory>
    requires { methods ≤ 10000 }
    ensures is { IfOk result (λ abc. abc ≡ generated_file seed methods) }
    ensures fits { IfOk result (λ abc. Fits abc) }
{
    let abc = made(alloc, seed, methods)?;
    Ok(abc)
}
