//! Bodies, with their code, handlers and traits.
ghost use Rattle.std.specs.Prelude.{◌≡◌, ◌<◌, ◌-◌, ◌^◌, ◌&&◌, nat_le, IfOk, length, min};
ghost use Rattle.abc_text_lines.specs.declared.word.Word.TheVariants as words;
ghost use Rattle.abc_file_types.specs.CodeBytes.{code_len as total};
ghost use Rattle.abc_text_lines.specs.File.{ends_body};
ghost use Rattle.abc_text_reader.specs.Parts.{ComesNext, ReadsItem, ReadsTextPart, all_items};
ghost use Rattle.abc_text_reader.specs.Reading.{Goes, IsReader, rows_left};
ghost use Rattle.abc_asm.specs.Below.{body_below, body_item};

use crate::coming::comes;
use crate::counted::with_fault;
use crate::traits::Traits;
use abc_base::Table;
use abc_file_types::{Body, Handler, Instr, TraitInfo};
use abc_text_lines::{AsmReason, Word};
use abc_text_operands::body_line;
use abc_text_reader::{
    AsmError, Gathering, Handlers, Reader, read_all, read_code, read_flat, refused, valued,
};
use abc_text_tokens::place_of;

/// The least length that code may not have.
const CODE_LIMIT: u64 = 1 << 23;

/// The lines below a body.
#[derive(Drop)]
pub struct BodyBelow {
    pub code: Table<Instr>,
    pub handlers: Table<Handler>,
    pub traits: Table<TraitInfo>,
}

/// Reads all bodies that come. `Refused` for the first fault, `NoMemory` where memory runs out.
pub fn read_bodies(reader: &mut Reader<'_>) -> Result<Table<Body>, AsmError>
    requires { IsReader reader.old }
    ensures goes { IfOk result (λ xs. Goes reader.old reader.new) }
    ensures reads { ReadsTextPart (all_items words.Body body_item) reader.old reader.new result }
{
    let mut bodies = Table::new(reader.alloc);
    let mut gathering = Gathering::new(reader.alloc);
    while comes(reader, Word::Body) {
        let body = read_body(reader, &mut gathering)?;
        bodies.push(body)?;
    }
    Ok(bodies)
}

/// Reads a body, whose line comes next.
fn read_body(reader: &mut Reader<'_>, gathering: &mut Gathering) -> Result<Body, AsmError>
    requires is { IsReader reader.old }
    requires next { ComesNext words.Body (rows_left reader.old) }
    ensures goes { IfOk result (λ x. Goes reader.old reader.new) }
    ensures ahead { IfOk result (λ x. length (rows_left reader.new) < length (rows_left reader.old)) }
    ensures reads { ReadsItem body_item reader.old reader.new result }
{
    let taken = reader.take()?;
    let own = body_line(reader.operands.as_slice(), &reader.sizes);
    let said = with_fault(own, !taken.repeated, AsmReason::SecondBody);
    let head = valued(&taken, said)?;
    let below = read_below(reader, gathering)?;
    if is_too_long(reader, gathering.len) {
        return Err(refused(taken.number, AsmReason::CodeTooLong));
    }
    Ok(Body {
        method: head.method,
        max_stack: head.max_stack,
        local_count: head.local_count,
        init_scope: head.init_scope,
        max_scope: head.max_scope,
        code: below.code,
        handlers: below.handlers,
        traits: below.traits,
    })
}

/// Whether the lines of a body end before the next line, and its code, of this length, is too long.
fn is_too_long(reader: &Reader<'_>, len: u64) -> bool
    ensures { result
        ≡ (ends_body reader.now.sizes reader.now.instances (rows_left reader.now) && nat_le (2 ^ 23) len) }
{
    let is_last = ends(reader);
    is_last && len >= CODE_LIMIT
}

/// Whether the text ends, or another body's line comes next.
fn ends(reader: &Reader<'_>) -> bool
    ensures { result ≡ ends_body reader.now.sizes reader.now.instances (rows_left reader.now) }
{
    match reader.word() {
        Some(next) => place_of(next) == place_of(Word::Body),
        None => true,
    }
}

/// The lines below a body. What was gathered has the length of its code.
fn read_below(reader: &mut Reader<'_>, gathering: &mut Gathering) -> Result<BodyBelow, AsmError>
    requires { IsReader reader.old }
    ensures goes { IfOk result (λ x. Goes reader.old reader.new) }
    ensures reads { ReadsTextPart body_below reader.old reader.new result }
    ensures len { IfOk result (λ below. gathering.new.len ≡ min (total below.code) (2 ^ 64 - 1)) }
{
    let code = read_code(reader, gathering)?;
    let handlers = read_flat::<Handlers>(reader)?;
    let traits = read_all::<Traits>(reader)?;
    Ok(BodyBelow {
        code,
        handlers,
        traits,
    })
}
